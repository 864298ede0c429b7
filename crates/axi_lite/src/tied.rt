//! The port: its registers, its nodes and its outputs.

ghost use Rattle.std.specs.Prelude.{◌≡◌, ◌++◌, ◌∷◌, [], IfOk, OnOk, codes};
ghost use Rattle.rtl_net.specs.Net.{Extends, HasClock, IsNode, Stands, registers_of, undriven};
ghost use Rattle.rtl_net.specs.Ports.{IsNew};
ghost use Rattle.rb_model.specs.Sound.{IsSound};
ghost use Rattle.gen_core.specs.Ties.{SeatsTaken};
ghost use Rattle.gen_ports.specs.Registers.{CanAdd, IsResetn};
ghost use Rattle.gen_ports.specs.Shows.{CanShow};
ghost use Rattle.gen_channels.specs.Nodes.{HasChannelPins, kept_seen};
ghost use Rattle.gen_channels.specs.Slaves.{IsSlave};
ghost use Rattle.axi_lite.specs.Built.{KeepsData, KeepsRest, ShowsChannels};
ghost use Rattle.axi_lite.specs.Tables.{data_register, own_outputs, own_registers};

use crate::places::channel_nodes;
use crate::tables::{output_table, register_table};
use gen_channels::{ChannelPins, Slave, next_nodes, read_data_node, ready_nodes, slave_nodes};
use gen_ports::{cleared_registers, drive_in_turn, show_in_turn};
use rb_base::NoMemory;
use rb_model::Block;
use rtl_net::{Id, NetReset, Netlist};
use std::alloc::Global;

/// Adds the port's registers but for that of the read data, its nodes, and drives them.
pub(crate) fn slave_port(
    alloc: Global,
    net: &mut Netlist,
    block: &Block,
    pins: ChannelPins,
) -> Result<Slave, NoMemory>
    requires sound { IsSound block.now }
    requires clock { HasClock net.old }
    requires pins { HasChannelPins net.old pins }
    requires resetn { IsResetn net.old pins.resetn }
    requires new { CanAdd net.old own_registers }
    ensures older { OnOk result (Extends net.old net.new) }
    ensures name { OnOk result (net.new.name ≡ net.old.name) }
    ensures seats { OnOk result (net.new.seats ≡ net.old.seats) }
    ensures registers { OnOk result (registers_of net.new.nodes ≡ registers_of net.old.nodes ++ own_registers) }
    ensures undriven { OnOk result (undriven net.new.nodes ≡ undriven net.old.nodes) }
    ensures slave { IfOk result (IsSlave block.now net.new) }
    ensures keeps { OnOk result (KeepsRest block.now net.new) }
{
    let kept = cleared_registers(alloc, net, pins.resetn, register_table())?;
    let slave = slave_nodes(alloc, net, block, pins, channel_nodes(&kept))?;
    let next = next_nodes(net, block, slave)?;
    let nexts = [
        next.aw,
        next.awaddr,
        next.w,
        next.wdata,
        next.wstrb,
        next.b,
        next.bresp,
        next.r,
        next.rresp,
    ];
    drive_in_turn(net, pins.resetn, register_table(), &kept, &nexts);
    Ok(slave)
}

/// Adds the register of the read data, and drives it, where `answer` is the data that the access reads.
pub(crate) fn read_data(
    net: &mut Netlist,
    block: &Block,
    slave: Slave,
    resetn: Id,
    answer: Id,
) -> Result<Id, NoMemory>
    requires clock { HasClock net.old }
    requires slave { IsSlave block.now net.old slave }
    requires resetn { IsResetn net.old resetn }
    requires answer { Stands net.old answer 32 }
    requires new { IsNew net.old (codes "axi$rdata") }
    ensures older { OnOk result (Extends net.old net.new) }
    ensures name { OnOk result (net.new.name ≡ net.old.name) }
    ensures seats { OnOk result (net.new.seats ≡ net.old.seats) }
    ensures registers { OnOk result (registers_of net.new.nodes ≡ registers_of net.old.nodes ++ data_register ∷ []) }
    ensures undriven { OnOk result (undriven net.new.nodes ≡ undriven net.old.nodes) }
    ensures rdata { IfOk result (λ id. IsNode net.new id 32 (λ v. (kept_seen v).rdata)) }
    ensures keeps { OnOk result (KeepsData block.now net.new answer) }
{
    let rdata = net.register(
        b"axi$rdata",
        32,
        NetReset::Async {
            pin: resetn,
            low: true,
            value: 0,
        },
    )?;
    let next = read_data_node(net, block, slave, answer, rdata)?;
    net.drive(rdata, next);
    Ok(rdata)
}

/// Shows the outputs of the port at their seats.
pub(crate) fn shown(
    net: &mut Netlist,
    block: &Block,
    slave: Slave,
    rdata: Id,
) -> Result<(), NoMemory>
    requires slave { IsSlave block.now net.old slave }
    requires rdata { IsNode net.old rdata 32 (λ v. (kept_seen v).rdata) }
    requires free { CanShow net.old own_outputs }
    ensures older { Extends net.old net.new }
    ensures name { net.new.name ≡ net.old.name }
    ensures registers { OnOk result (registers_of net.new.nodes ≡ registers_of net.old.nodes) }
    ensures undriven { OnOk result (undriven net.new.nodes ≡ undriven net.old.nodes) }
    ensures seats { OnOk result (SeatsTaken net.old.seats net.new.seats own_outputs) }
    ensures shows { OnOk result (ShowsChannels net.new) }
{
    let kept = slave.kept;
    let ready = ready_nodes(net, kept)?;
    let nodes = [
        ready.awready,
        ready.wready,
        kept.bresp,
        kept.b,
        slave.acts.ready,
        rdata,
        kept.rresp,
        kept.r,
    ];
    show_in_turn(net, output_table(), &nodes)?;
    Ok(())
}
