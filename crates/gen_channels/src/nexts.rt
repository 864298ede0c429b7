//! What is kept of the channels after an edge.

ghost use Rattle.std.specs.Prelude.{◌≡◌, ◌==◌, ◌&&◌, if◌then◌else◌, IfOk};
ghost use Rattle.rtl_net.specs.Value.{bit_of};
ghost use Rattle.rtl_net.specs.Net.{Grows, IsNode, Stands};

use net_gates::{both, choose, either, opposite, zero};
use rb_base::NoMemory;
use rtl_net::{Id, Netlist};

/// Whether something is taken from a master: it is valid, and the channel is free.
#[tactic(auto, using(rtl_net::proofs::Nets::building))]
pub(crate) fn taken(net: &mut Netlist, valid: Id, kept: Id) -> Result<Id, NoMemory>
    requires valid { Stands net.old valid 1 }
    requires kept { Stands net.old kept 1 }
    ensures older { Grows net.old net.new }
    ensures name { net.new.name ≡ net.old.name }
    ensures taken { IfOk result (λ id. IsNode net.new id 1 (λ v. bit_of (v.node valid.0 == 1 && v.node kept.0 == 0))) }
{
    let free = opposite(net, kept)?;
    both(net, valid, free)
}

/// A bit that is cleared, set, or kept.
#[tactic(auto, using(rtl_net::proofs::Nets::building))]
pub(crate) fn request_bit(net: &mut Netlist, clears: Id, sets: Id, kept: Id) -> Result<Id, NoMemory>
    requires clears { Stands net.old clears 1 }
    requires sets { Stands net.old sets 1 }
    requires kept { Stands net.old kept 1 }
    ensures older { Grows net.old net.new }
    ensures name { net.new.name ≡ net.old.name }
    ensures bit { IfOk result (λ id. IsNode net.new id 1 (λ v. if v.node clears.0 == 1 then 0 else (if v.node sets.0 == 1 then 1 else v.node kept.0))) }
{
    let there = either(net, sets, kept)?;
    let none = zero(net, 1)?;
    choose(net, clears, none, there)
}

/// A response's bit: it is set, or kept until it is taken.
#[tactic(auto, using(rtl_net::proofs::Nets::building))]
pub(crate) fn response_bit(net: &mut Netlist, sets: Id, kept: Id, ready: Id) -> Result<Id, NoMemory>
    requires sets { Stands net.old sets 1 }
    requires kept { Stands net.old kept 1 }
    requires ready { Stands net.old ready 1 }
    ensures older { Grows net.old net.new }
    ensures name { net.new.name ≡ net.old.name }
    ensures bit { IfOk result (λ id. IsNode net.new id 1 (λ v. if v.node sets.0 == 1 then 1 else (if v.node kept.0 == 1 && v.node ready.0 == 1 then 0 else v.node kept.0))) }
{
    let waits = opposite(net, ready)?;
    let stays = both(net, kept, waits)?;
    either(net, sets, stays)
}
