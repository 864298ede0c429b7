//! One edge of a counter (SystemRDL 2.0, 9.8).

ghost use Rattle.std.specs.Prelude.{◌≡◌, ◌≤◌, IfOk};
ghost use Rattle.rtl_net.specs.Value.{At};
ghost use Rattle.rtl_net.specs.Net.{Grows, IsNode, Has, Stands, MayHave, seen, width_in};
ghost use Rattle.rb_model.specs.Effects as spec;

use crate::edge::{counted, overflow, underflow};
use rb_base::NoMemory;
use rtl_net::{Id, Netlist};

/// What counting gives: the next value, and whether the count overflows or underflows, of one bit each.
#[derive(Clone, Copy, Debug, PartialEq, Eq)]
pub struct Counted {
    pub next: Id,
    pub overflow: Id,
    pub underflow: Id,
}

/// The value after a count, and whether the count overflows or underflows. All widths are equal, at most 64 bits.
#[tactic(auto, using(crate::proofs::Wraps::wraps))]
pub fn count(
    net: &mut Netlist,
    v: Id,
    up: Id,
    down: Id,
    high: Option<Id>,
    low: Option<Id>,
) -> Result<Counted, NoMemory>
    requires v { Has net.old v }
    requires narrow { width_in net.old v ≤ 64 }
    requires up { Stands net.old up (width_in net.old v) }
    requires down { Stands net.old down (width_in net.old v) }
    requires high { MayHave net.old high (width_in net.old v) }
    requires low { MayHave net.old low (width_in net.old v) }
    ensures older { Grows net.old net.new }
    ensures name { net.new.name ≡ net.old.name }
    ensures next { IfOk result (λ r. IsNode net.new r.next (width_in net.old v) (λ x.
        spec.counted (width_in net.old v) (x.node v.0) (x.node up.0) (x.node down.0) (seen x high) (seen x low))) }
    ensures overflow { IfOk result (λ r. IsNode net.new r.overflow 1 (λ x. spec.overflows (width_in net.old v) (x.node v.0) (x.node up.0) (x.node down.0))) }
    ensures underflow { IfOk result (λ r. IsNode net.new r.underflow 1 (λ x. spec.underflows (x.node v.0) (x.node up.0) (x.node down.0))) }
{
    let next = counted(net, v, up, down, high, low)?;
    let overflow = overflow(net, v, up, down)?;
    let underflow = underflow(net, v, up, down)?;
    Ok(Counted {
        next,
        overflow,
        underflow,
    })
}
