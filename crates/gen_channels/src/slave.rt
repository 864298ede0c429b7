//! The nodes of a port.

ghost use Rattle.std.specs.Prelude.{◌≡◌, IfOk};
ghost use Rattle.rtl_net.specs.Net.{Grows, IsNode, Stands};
ghost use Rattle.rb_model.specs.Sound.{IsSound};
ghost use Rattle.axi_model.specs.Channels.{moved};
ghost use Rattle.gen_channels.specs.Nodes.{HasChannelPins, HasChannels, kept_seen, pins_seen};
ghost use Rattle.gen_channels.specs.Slaves.{AreNexts, AreReadies, IsSlave};

use crate::access::{Request, requested};
use crate::acts::{Acts, acting};
use crate::answers::{read_nexts, write_nexts};
use crate::kept::ChannelNodes;
use crate::pins::ChannelPins;
use crate::requests::{address_nexts, data_nexts};
use net_gates::{choose, opposite};
use rb_base::NoMemory;
use rb_model::Block;
use rtl_net::{Id, Netlist};
use std::alloc::Global;

/// The nodes of an AXI4-Lite slave port: its pins, its registers, what acts at an edge, and the access.
#[derive(Clone, Copy)]
pub struct Slave {
    pub pins: ChannelPins,
    pub kept: ChannelNodes,
    pub acts: Acts,
    pub request: Request,
}

/// The nodes of AWREADY and WREADY, of one bit.
#[derive(Clone, Copy)]
pub struct Readies {
    pub awready: Id,
    pub wready: Id,
}

/// Adds the nodes of an AXI4-Lite slave port to a netlist that has those of its pins and of its registers: what acts at an edge, and which
/// access that is. The only error is want of memory, after which the netlist has some of them.
#[tactic(auto, using(rtl_net::proofs::Nets::building))]
pub fn slave_nodes(
    alloc: Global,
    net: &mut Netlist,
    block: &Block,
    pins: ChannelPins,
    kept: ChannelNodes,
) -> Result<Slave, NoMemory>
    requires sound { IsSound block.now }
    requires pins { HasChannelPins net.old pins }
    requires kept { HasChannels net.old kept }
    ensures older { Grows net.old net.new }
    ensures name { net.new.name ≡ net.old.name }
    ensures slave { IfOk result (IsSlave block.now net.new) }
{
    let acts = acting(net, pins, kept)?;
    let request = requested(alloc, net, block, pins, kept, acts)?;
    Ok(Slave {
        pins,
        kept,
        acts,
        request,
    })
}

/// Adds the nodes that the registers of the port, but for the read data, take at an edge without reset. The only error is want of memory,
/// after which the netlist has some of them.
#[tactic(auto, using(rtl_net::proofs::Nets::building))]
pub fn next_nodes(net: &mut Netlist, block: &Block, slave: Slave) -> Result<ChannelNodes, NoMemory>
    requires sound { IsSound block.now }
    requires slave { IsSlave block.now net.old slave }
    ensures older { Grows net.old net.new }
    ensures name { net.new.name ≡ net.old.name }
    ensures nexts { IfOk result (AreNexts block.now net.new) }
{
    let address = address_nexts(net, block, slave)?;
    let data = data_nexts(net, block, slave)?;
    let write = write_nexts(net, block, slave)?;
    let read = read_nexts(net, block, slave)?;
    Ok(ChannelNodes {
        aw: address.aw,
        awaddr: address.awaddr,
        w: data.w,
        wdata: data.wdata,
        wstrb: data.wstrb,
        b: write.b,
        bresp: write.bresp,
        r: read.r,
        rresp: read.rresp,
    })
}

/// Adds the node that the register of the read data takes at an edge without reset: of 32 bits, `answer` where a read acts, and else what
/// the register `kept` contains. The only error is want of memory, after which the netlist may have it.
#[tactic(auto, using(rtl_net::proofs::Nets::building))]
pub fn read_data_node(
    net: &mut Netlist,
    block: &Block,
    slave: Slave,
    answer: Id,
    kept: Id,
) -> Result<Id, NoMemory>
    requires slave { IsSlave block.now net.old slave }
    requires answer { Stands net.old answer 32 }
    requires kept { IsNode net.old kept 32 (λ v. (kept_seen v).rdata) }
    ensures older { Grows net.old net.new }
    ensures name { net.new.name ≡ net.old.name }
    ensures next { IfOk result (λ id. IsNode net.new id 32 (λ v. (moved block.now (pins_seen v) (kept_seen v) (v.node answer.0)).rdata)) }
{
    let id = choose(net, slave.acts.reads, answer, kept)?;
    Ok(id)
}

/// Adds the nodes of AWREADY and WREADY: an address and data are taken where none waits. The only error is want of memory, after which
/// the netlist has some of them.
#[tactic(auto, using(rtl_net::proofs::Nets::building))]
pub fn ready_nodes(net: &mut Netlist, kept: ChannelNodes) -> Result<Readies, NoMemory>
    requires { HasChannels net.old kept }
    ensures older { Grows net.old net.new }
    ensures name { net.new.name ≡ net.old.name }
    ensures ready { IfOk result (AreReadies net.new) }
{
    let awready = opposite(net, kept.aw)?;
    let wready = opposite(net, kept.w)?;
    Ok(Readies { awready, wready })
}
