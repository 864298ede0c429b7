//! What acts at an edge.

ghost use Rattle.std.specs.Prelude.{◌≡◌, IfOk};
ghost use Rattle.rtl_net.specs.Value.{bit_of};
ghost use Rattle.rtl_net.specs.Net.{Grows, IsNode};
ghost use Rattle.axi_model.specs.Channels as spec;
ghost use Rattle.gen_channels.specs.Nodes.{HasChannelPins, HasChannels, kept_seen, pins_seen};
ghost use Rattle.gen_channels.specs.Slaves.{SayActs};

use crate::kept::ChannelNodes;
use crate::pins::ChannelPins;
use net_gates::{both, opposite};
use rb_base::NoMemory;
use rtl_net::{Id, Netlist};

/// The nodes of what acts at an edge: a write, a read, and whether a read address is taken where one is valid.
#[derive(Clone, Copy)]
pub struct Acts {
    pub writes: Id,
    pub reads: Id,
    pub ready: Id,
}

/// Whether a write acts.
#[tactic(auto, using(rtl_net::proofs::Nets::building))]
fn writing(net: &mut Netlist, pins: ChannelPins, kept: ChannelNodes) -> Result<Id, NoMemory>
    requires pins { HasChannelPins net.old pins }
    requires kept { HasChannels net.old kept }
    ensures older { Grows net.old net.new }
    ensures name { net.new.name ≡ net.old.name }
    ensures writes { IfOk result (λ id. IsNode net.new id 1 (λ v. bit_of (spec.writes (pins_seen v) (kept_seen v)))) }
{
    let addressed = both(net, pins.resetn, kept.aw)?;
    let there = both(net, addressed, kept.w)?;
    let free = opposite(net, kept.b)?;
    let writes = both(net, there, free)?;
    Ok(writes)
}

/// Whether a read address is taken where one is valid.
#[tactic(auto, using(rtl_net::proofs::Nets::building))]
fn ready(net: &mut Netlist, kept: ChannelNodes, writes: Id) -> Result<Id, NoMemory>
    requires kept { HasChannels net.old kept }
    requires writes { IsNode net.old writes 1 (λ v. bit_of (spec.writes (pins_seen v) (kept_seen v))) }
    ensures older { Grows net.old net.new }
    ensures name { net.new.name ≡ net.old.name }
    ensures ready { IfOk result (λ id. IsNode net.new id 1 (λ v. bit_of (spec.can_read (pins_seen v) (kept_seen v)))) }
{
    let empty = opposite(net, kept.r)?;
    let quiet = opposite(net, writes)?;
    let ready = both(net, empty, quiet)?;
    Ok(ready)
}

/// Whether a read acts.
#[tactic(auto, using(rtl_net::proofs::Nets::building))]
fn reading(net: &mut Netlist, pins: ChannelPins, ready: Id) -> Result<Id, NoMemory>
    requires pins { HasChannelPins net.old pins }
    requires ready { IsNode net.old ready 1 (λ v. bit_of (spec.can_read (pins_seen v) (kept_seen v))) }
    ensures older { Grows net.old net.new }
    ensures name { net.new.name ≡ net.old.name }
    ensures reads { IfOk result (λ id. IsNode net.new id 1 (λ v. bit_of (spec.reads (pins_seen v) (kept_seen v)))) }
{
    let asked = both(net, pins.resetn, pins.arvalid)?;
    let reads = both(net, asked, ready)?;
    Ok(reads)
}

/// What acts at an edge.
#[tactic(auto, using(rtl_net::proofs::Nets::building))]
pub(crate) fn acting(
    net: &mut Netlist,
    pins: ChannelPins,
    kept: ChannelNodes,
) -> Result<Acts, NoMemory>
    requires pins { HasChannelPins net.old pins }
    requires kept { HasChannels net.old kept }
    ensures older { Grows net.old net.new }
    ensures name { net.new.name ≡ net.old.name }
    ensures acts { IfOk result (SayActs net.new) }
{
    let writes = writing(net, pins, kept)?;
    let ready = ready(net, kept, writes)?;
    let reads = reading(net, pins, ready)?;
    Ok(Acts {
        writes,
        reads,
        ready,
    })
}
