//! Expressions as operations.
ghost use Rattle.std.specs.Prelude.{◌≡◌, ◌+◌, ◌<◌, Some, IsSome, IfOk, IfSome};
ghost use Rattle.v_design.specs.Seen.{expr_seen};
ghost use Rattle.cyc_sim.specs.Compiled.{known_at, end_of, AreBelow, Compiles, IsBehind, IsReady};

use crate::listing::{Listing, Wire};
use crate::operation::Operation;
use rb_base::{NoMemory, Text};
use std::collections::BTreeMap;
use v_design::VExpr;

/// The bytes of a name.
pub(crate) fn bytes_of(name: &Text) -> &[u8]
    ensures { result.now ≡ name.now }
{
    name.bytes.as_slice()
}

/// The wire of a net that has one.
pub(crate) fn wire_of(known: &BTreeMap<&[u8], Wire>, name: &Text) -> Wire
    requires { IsSome (known_at known.now name.now) }
    ensures { known_at known.now name.now ≡ Some result }
{
    match known.get(bytes_of(name)) {
        Some(wire) => *wire,
        None => unreachable!(),
    }
}

/// Adds what puts a wire behind those joined before it: nothing, if there are none.
fn behind(listing: &mut Listing, joined: Option<Wire>, low: Wire) -> Result<Wire, NoMemory>
    requires high { IfSome joined (λ high. high.place < end_of listing.old) }
    requires low { low.place < end_of listing.old }
    requires narrow { IfSome joined (λ high. high.width + low.width < 256) }
    ensures { IfOk result (IsBehind listing.old listing.new joined low) }
{
    match joined {
        Some(high) => listing.join(high, low),
        None => Ok(low),
    }
}

/// Adds the operations of an expression over nets that have a place, and answers the wire of its value.
pub(crate) fn compile(
    known: &BTreeMap<&[u8], Wire>,
    expr: &VExpr,
    listing: &mut Listing,
) -> Result<Wire, NoMemory>
    requires below { AreBelow known.now (end_of listing.old) }
    requires ready { IsReady known.now (expr_seen expr.now) }
    ensures { IfOk result (Compiles known.now (expr_seen expr.now) listing.old listing.new) }
{
    match expr {
        VExpr::Net(name) => Ok(wire_of(known, name)),
        VExpr::Bits(name, high, low) => listing.part(wire_of(known, name), *high, *low),
        VExpr::Const(width, value) => listing.constant(*width, *value),
        VExpr::Cat(parts) => {
            let mut joined = None;
            for part in parts {
                let low = compile(known, part, listing)?;
                let wire = behind(listing, joined, low)?;
                joined = Some(wire);
            }
            match joined {
                Some(joined) => Ok(joined),
                None => listing.constant(0, 0),
            }
        }
        VExpr::One(op, of) => {
            let of = compile(known, of, listing)?;
            listing.one(*op, of)
        }
        VExpr::Two(op, left, right) => {
            let left = compile(known, left, listing)?;
            let right = compile(known, right, listing)?;
            listing.two(*op, left, right)
        }
        VExpr::Pick(test, chosen, other) => {
            let test = compile(known, test, listing)?;
            let chosen = compile(known, chosen, listing)?;
            let other = compile(known, other, listing)?;
            listing.pick(test, chosen, other)
        }
    }
}
