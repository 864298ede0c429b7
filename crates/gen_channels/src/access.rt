//! Which access an edge has.

ghost use Rattle.std.specs.Prelude.{◌≡◌, ◌/◌, ◌*◌, ◌==◌, is_some, IfOk};
ghost use Rattle.rtl_net.specs.Value.{bit_of};
ghost use Rattle.rtl_net.specs.Net.{Grows, IsNode, Stands};
ghost use Rattle.rb_model.specs.Sound.{IsSound};
ghost use Rattle.rb_model.specs.Run.{word_at};
ghost use Rattle.axi_model.specs.Channels as spec;
ghost use Rattle.gen_channels.specs.Nodes.{HasChannelPins, HasChannels, kept_seen, pins_seen};
ghost use Rattle.gen_channels.specs.Slaves.{IsRequest, SayActs, address_seen, has_access};

use crate::acts::Acts;
use crate::kept::ChannelNodes;
use crate::pins::ChannelPins;
use gen_ports::word_node;
use gen_scene::Inlet;
use net_gates::{both, choose, either, placed, slice};
use rb_base::NoMemory;
use rb_model::Block;
use rtl_net::{Id, NetExpr, Netlist};
use std::alloc::Global;

/// The nodes of an access, whether its address is a word's, and whether all bytes would be written.
#[derive(Clone, Copy)]
pub struct Request {
    pub inlet: Inlet,
    pub hit: Id,
    pub whole: Id,
}

/// An address without its two low bits.
#[tactic(auto, using(rtl_net::proofs::Nets::building))]
pub(crate) fn aligned(net: &mut Netlist, address: Id) -> Result<Id, NoMemory>
    requires { Stands net.old address 32 }
    ensures older { Grows net.old net.new }
    ensures name { net.new.name ≡ net.old.name }
    ensures aligned { IfOk result (λ id. IsNode net.new id 32 (λ v. v.node address.0 / 4 * 4)) }
{
    let words = slice(net, address, 31, 2)?;
    placed(net, words, 2, 32)
}

/// The address of the access.
#[tactic(auto, using(rtl_net::proofs::Nets::building))]
pub(crate) fn address(
    net: &mut Netlist,
    pins: ChannelPins,
    kept: ChannelNodes,
    writes: Id,
) -> Result<Id, NoMemory>
    requires pins { HasChannelPins net.old pins }
    requires kept { HasChannels net.old kept }
    requires writes { IsNode net.old writes 1 (λ v. bit_of (spec.writes (pins_seen v) (kept_seen v))) }
    ensures older { Grows net.old net.new }
    ensures name { net.new.name ≡ net.old.name }
    ensures address { IfOk result (λ id. IsNode net.new id 32 address_seen) }
{
    let chosen = choose(net, writes, kept.awaddr, pins.araddr)?;
    let address = aligned(net, chosen)?;
    Ok(address)
}

/// Whether all bytes of the data are written.
pub(crate) fn whole(net: &mut Netlist, kept: ChannelNodes) -> Result<Id, NoMemory>
    requires { HasChannels net.old kept }
    ensures older { Grows net.old net.new }
    ensures name { net.new.name ≡ net.old.name }
    ensures whole { IfOk result (λ id. IsNode net.new id 1 (λ v. bit_of ((kept_seen v).wstrb == 15))) }
{
    let id = net.fold(NetExpr::All(kept.wstrb))?;
    Ok(id)
}

/// Whether something is written or read, where its word is there.
#[tactic(auto, using(rtl_net::proofs::Nets::building))]
pub(crate) fn valid(
    net: &mut Netlist,
    block: &Block,
    writes: Id,
    whole: Id,
    reads: Id,
    hit: Id,
) -> Result<Id, NoMemory>
    requires writes { IsNode net.old writes 1 (λ v. bit_of (spec.writes (pins_seen v) (kept_seen v))) }
    requires whole { IsNode net.old whole 1 (λ v. bit_of ((kept_seen v).wstrb == 15)) }
    requires reads { IsNode net.old reads 1 (λ v. bit_of (spec.reads (pins_seen v) (kept_seen v))) }
    requires hit { IsNode net.old hit 1 (λ v. bit_of (is_some (word_at block.now.reads (address_seen v)))) }
    ensures older { Grows net.old net.new }
    ensures name { net.new.name ≡ net.old.name }
    ensures valid { IfOk result (λ id. IsNode net.new id 1 (λ v. bit_of (has_access block.now v))) }
{
    let stores = both(net, writes, whole)?;
    let acts = either(net, stores, reads)?;
    let valid = both(net, acts, hit)?;
    Ok(valid)
}

/// The nodes of the access of an edge.
#[tactic(auto, using(rtl_net::proofs::Nets::building))]
pub(crate) fn requested(
    alloc: Global,
    net: &mut Netlist,
    block: &Block,
    pins: ChannelPins,
    kept: ChannelNodes,
    acts: Acts,
) -> Result<Request, NoMemory>
    requires sound { IsSound block.now }
    requires pins { HasChannelPins net.old pins }
    requires kept { HasChannels net.old kept }
    requires acts { SayActs net.old acts }
    ensures older { Grows net.old net.new }
    ensures name { net.new.name ≡ net.old.name }
    ensures request { IfOk result (IsRequest block.now net.new) }
{
    let address = address(net, pins, kept, acts.writes)?;
    let found = word_node(alloc, net, block, address)?;
    let whole = whole(net, kept)?;
    let valid = valid(net, block, acts.writes, whole, acts.reads, found.hit)?;
    let inlet = Inlet {
        valid,
        write: acts.writes,
        word: found.word,
        bits: kept.wdata,
    };
    Ok(Request {
        inlet,
        hit: found.hit,
        whole,
    })
}
