//! Levels at which a counter saturates.

ghost use Rattle.std.specs.Prelude.{◌≡◌, ◌+◌, ◌==◌, ◌&&◌, ◌≤◌, ℕ, IfOk, if◌then◌else◌, nat_lt, Some, unwrap_or};
ghost use Rattle.rtl_net.specs.Value.{At, bit_of};
ghost use Rattle.rtl_net.specs.Net.{Grows, IsNode, Has, Stands, MayHave, seen, width_in};
ghost use Rattle.rb_model.specs.Effects as spec;

use crate::sums::plus;
use net_gates::{both, choose, is_zero, less, nonzero};
use rb_base::NoMemory;
use rtl_net::{Id, Netlist};

/// Whether the sum of two nodes is below that of two others.
#[tactic(auto, using(crate::proofs::Wraps::wraps))]
fn below(net: &mut Netlist, a: Id, b: Id, c: Id, d: Id) -> Result<Id, NoMemory>
    requires a { Has net.old a }
    requires narrow { width_in net.old a ≤ 64 }
    requires b { Stands net.old b (width_in net.old a) }
    requires c { Stands net.old c (width_in net.old a) }
    requires d { Stands net.old d (width_in net.old a) }
    ensures older { Grows net.old net.new }
    ensures name { net.new.name ≡ net.old.name }
    ensures node { IfOk result (λ id. IsNode net.new id 1 (λ x. bit_of (nat_lt (x.node a.0 + x.node b.0) (x.node c.0 + x.node d.0)))) }
{
    let first = plus(net, a, b)?;
    let second = plus(net, c, d)?;
    let id = less(net, first, second)?;
    Ok(id)
}

/// Whether a node is not 0 and a bit is 1.
#[tactic(auto, using(crate::proofs::Wraps::wraps))]
fn while_nonzero(net: &mut Netlist, n: Id, bit: Id) -> Result<Id, NoMemory>
    requires n { Has net.old n }
    requires bit { Stands net.old bit 1 }
    ensures older { Grows net.old net.new }
    ensures name { net.new.name ≡ net.old.name }
    ensures node { IfOk result (λ id. IsNode net.new id 1 (λ x. bit_of (nat_lt 0 (x.node n.0) && x.node bit.0 == 1))) }
{
    let some = nonzero(net, n)?;
    let id = both(net, some, bit)?;
    Ok(id)
}

/// The level at which a count that goes up saturates, where it would go over it, else another value.
#[tactic(auto, using(crate::proofs::Wraps::wraps))]
pub(crate) fn capped(
    net: &mut Netlist,
    other: Id,
    v: Id,
    up: Id,
    down: Id,
    high: Option<Id>,
) -> Result<Id, NoMemory>
    requires v { Has net.old v }
    requires narrow { width_in net.old v ≤ 64 }
    requires other { Stands net.old other (width_in net.old v) }
    requires up { Stands net.old up (width_in net.old v) }
    requires down { Stands net.old down (width_in net.old v) }
    requires high { MayHave net.old high (width_in net.old v) }
    ensures older { Grows net.old net.new }
    ensures name { net.new.name ≡ net.old.name }
    ensures node { IfOk result (λ id. IsNode net.new id (width_in net.old v) (λ x.
        if spec.is_over (x.node v.0) (x.node up.0) (x.node down.0) (seen x high) then unwrap_or (seen x high) 0 else x.node other.0)) }
{
    match high {
        Some(high) if !is_zero(net, up) => {
            let over = below(net, high, down, v, up)?;
            let acts = while_nonzero(net, up, over)?;
            let id = choose(net, acts, high, other)?;
            Ok(id)
        }
        _ => Ok(other),
    }
}

/// The level at which a count that goes down saturates, where it would go under it, else another value.
#[tactic(auto, using(crate::proofs::Wraps::wraps))]
pub(crate) fn floored(
    net: &mut Netlist,
    other: Id,
    v: Id,
    up: Id,
    down: Id,
    low: Option<Id>,
) -> Result<Id, NoMemory>
    requires v { Has net.old v }
    requires narrow { width_in net.old v ≤ 64 }
    requires other { Stands net.old other (width_in net.old v) }
    requires up { Stands net.old up (width_in net.old v) }
    requires down { Stands net.old down (width_in net.old v) }
    requires low { MayHave net.old low (width_in net.old v) }
    ensures older { Grows net.old net.new }
    ensures name { net.new.name ≡ net.old.name }
    ensures node { IfOk result (λ id. IsNode net.new id (width_in net.old v) (λ x.
        if spec.is_under (x.node v.0) (x.node up.0) (x.node down.0) (seen x low) then unwrap_or (seen x low) 0 else x.node other.0)) }
{
    match low {
        Some(low) if !is_zero(net, down) => {
            let under = below(net, v, up, low, down)?;
            let acts = while_nonzero(net, down, under)?;
            let id = choose(net, acts, low, other)?;
            Ok(id)
        }
        _ => Ok(other),
    }
}
