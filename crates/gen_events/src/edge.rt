//! The next value of a counter, and whether it leaves its width (SystemRDL 2.0, 9.8).

ghost use Rattle.std.specs.Prelude.{◌≡◌, ◌≤◌, IfOk};
ghost use Rattle.rtl_net.specs.Value.{At};
ghost use Rattle.rtl_net.specs.Net.{Grows, IsNode, Has, Stands, MayHave, seen, width_in};
ghost use Rattle.rb_model.specs.Effects as spec;

use crate::levels::{capped, floored};
use crate::sums::{beyond, plus, wrapped};
use net_gates::{is_zero, less, opposite, widened, zero};
use rb_base::NoMemory;
use rtl_net::{Id, Netlist};

/// The value after a count by `up` and `down`, with the levels at which it saturates. All widths are equal, at most 64
/// bits.
#[tactic(auto, using(crate::proofs::Wraps::wraps))]
pub fn counted(
    net: &mut Netlist,
    v: Id,
    up: Id,
    down: Id,
    high: Option<Id>,
    low: Option<Id>,
) -> Result<Id, NoMemory>
    requires v { Has net.old v }
    requires narrow { width_in net.old v ≤ 64 }
    requires up { Stands net.old up (width_in net.old v) }
    requires down { Stands net.old down (width_in net.old v) }
    requires high { MayHave net.old high (width_in net.old v) }
    requires low { MayHave net.old low (width_in net.old v) }
    ensures older { Grows net.old net.new }
    ensures name { net.new.name ≡ net.old.name }
    ensures node { IfOk result (λ id. IsNode net.new id (width_in net.old v) (λ x.
        spec.counted (width_in net.old v) (x.node v.0) (x.node up.0) (x.node down.0) (seen x high) (seen x low))) }
{
    let within = wrapped(net, v, up, down)?;
    let above = floored(net, within, v, up, down, low)?;
    let id = capped(net, above, v, up, down, high)?;
    Ok(id)
}

/// Whether a count by `up` and `down` leaves the width of `v` upwards. All widths are equal, at most 64 bits.
#[tactic(auto, using(crate::proofs::Wraps::wraps))]
pub fn overflow(net: &mut Netlist, v: Id, up: Id, down: Id) -> Result<Id, NoMemory>
    requires v { Has net.old v }
    requires narrow { width_in net.old v ≤ 64 }
    requires up { Stands net.old up (width_in net.old v) }
    requires down { Stands net.old down (width_in net.old v) }
    ensures older { Grows net.old net.new }
    ensures name { net.new.name ≡ net.old.name }
    ensures node { IfOk result (λ id. IsNode net.new id 1 (λ x. spec.overflows (width_in net.old v) (x.node v.0) (x.node up.0) (x.node down.0))) }
{
    if is_zero(net, up) {
        return zero(net, 1);
    }
    let reached = plus(net, v, up)?;
    let limit = beyond(net, down)?;
    let below = less(net, reached, limit)?;
    let id = opposite(net, below)?;
    Ok(id)
}

/// Whether a count by `up` and `down` goes below 0. All widths are equal, at most 64 bits.
#[tactic(auto, using(crate::proofs::Wraps::wraps))]
pub fn underflow(net: &mut Netlist, v: Id, up: Id, down: Id) -> Result<Id, NoMemory>
    requires v { Has net.old v }
    requires narrow { width_in net.old v ≤ 64 }
    requires up { Stands net.old up (width_in net.old v) }
    requires down { Stands net.old down (width_in net.old v) }
    ensures older { Grows net.old net.new }
    ensures name { net.new.name ≡ net.old.name }
    ensures node { IfOk result (λ id. IsNode net.new id 1 (λ x. spec.underflows (x.node v.0) (x.node up.0) (x.node down.0))) }
{
    if is_zero(net, down) {
        return zero(net, 1);
    }
    let width = net.width(v) + 2;
    let reached = plus(net, v, up)?;
    let wide = widened(net, down, width)?;
    let id = less(net, reached, wide)?;
    Ok(id)
}
