//! A block's netlist put together.

ghost use Rattle.std.specs.Prelude.{◌≡◌, ℕ, ◌++◌, [], List, IfOk, OnOk, codes};
ghost use Rattle.std.specs.List.{AllByRecursion};
ghost use Rattle.v_design.specs.Expr.{Values};
ghost use Rattle.rtl_net.specs.Fits.{AllFit};
ghost use Rattle.rtl_net.specs.Net.{Net, registers_of, undriven};
ghost use Rattle.rtl_net.specs.Run.{NetRun};
ghost use Rattle.rb_model.specs.Front.{Contain, IsWithin, front_inputs, pins_at};
ghost use Rattle.rb_model.specs.Kept.{Map};
ghost use Rattle.rb_model.specs.Sound.{IsSound};
ghost use Rattle.axi_model.specs.Axi.{AxiKept, axi as front};
ghost use Rattle.axi_model.specs.Channels.{idle};
ghost use Rattle.axi_model.specs.Ports.{axi_name};
ghost use Rattle.axi_model.specs.Transfers.{AreTransfers, moments};
ghost use Rattle.gen_front.specs.Netlist.{IsNetlistOf};
ghost use Rattle.axi_lite.specs.Built.{IsAxiBuilt};

use crate::places::{channel_pins, core_pins};
use crate::tied::{read_data, shown, slave_port};
use axi_model::{axi_ports, axi_runs, transfers_belong_together};
use gen_core::core;
use gen_ports::port_nodes;
use rb_base::NoMemory;
use rb_model::Block;
use rtl_net::{Netlist, one_run};
use std::alloc::Global;

/// The name of a block's module.
fn module_name(alloc: Global, block: &Block) -> Result<Vec<u8>, NoMemory>
    ensures { IfOk result (λ name. name.items ≡ axi_name block.now) }
{
    let mut name = Vec::new(alloc);
    name.extend_from_slice(&block.name.bytes)?;
    name.extend_from_slice(b"_axi")?;
    Ok(name)
}

/// Builds a block's ports, its AXI4-Lite slave port and its core into an empty netlist.
fn build(alloc: Global, net: &mut Netlist, block: &Block) -> Result<(), NoMemory>
    requires sound { IsSound block.now }
    requires seats { net.old.seats ≡ [] }
    requires registers { registers_of net.old.nodes ≡ [] }
    requires undriven { undriven net.old.nodes ≡ 0 }
    ensures name { OnOk result (net.new.name ≡ net.old.name) }
    ensures built { OnOk result (IsAxiBuilt block.now net.new) }
{
    let ports = axi_ports(alloc, block)?;
    let ids = port_nodes(alloc, net, &ports)?;
    let pins = channel_pins(block, &ids);
    let slave = slave_port(alloc, net, block, pins)?;
    let inner = core_pins(alloc, block, &ids)?;
    let answer = core(alloc, net, block, &inner, slave.request.inlet)?;
    let rdata = read_data(net, block, slave, pins.resetn, answer)?;
    shown(net, block, slave, rdata)?;
    Ok(())
}

/// The netlist of a block's module behind an AXI4-Lite slave port (IHI 0022) of 32 data bits: of the block's name, with its ports in
/// order, the registers of what its fields and the port keep, and from any start and for any vectors with the outputs of the block's
/// machine. In a run without reset from a port that keeps nothing, each answer belongs to what was asked. The only error is want of
/// memory.
pub fn axi(alloc: Global, block: &Block) -> Result<Netlist, NoMemory>
    requires { IsSound block.now }
    ensures netlist { IfOk result (λ net. IsNetlistOf net (front block.now)) }
    ensures transfers { IfOk result (λ net. (fields : Map) (contents : Values) (vectors outputs : List (List ℕ))
        → IsWithin (front block.now) (record { fields = fields; channels = idle }) → Contain (front block.now) (record { fields = fields; channels = idle }) contents
        → AllFit (front_inputs (front block.now)) vectors → AllByRecursion (λ x. pins_at (front block.now) x (codes "PRESETn") ≡ 1) vectors
        → NetRun net contents vectors outputs → AreTransfers block.now (moments block.now vectors outputs)) }
{
    axi_runs();
    transfers_belong_together();
    one_run();
    let name = module_name(alloc, block)?;
    let mut net = Netlist::new(alloc, &name)?;
    build(alloc, &mut net, block)?;
    // The proof cites what holds of each netlist, which it knows where the nodes are read.
    let _nodes = net.nodes();
    Ok(net)
}
