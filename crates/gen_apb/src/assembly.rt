//! A block's netlist put together.

ghost use Rattle.std.specs.Prelude.{◌≡◌, ◌++◌, [], IfOk, OnOk};
ghost use Rattle.rtl_net.specs.Net.{Net, registers_of, undriven};
ghost use Rattle.rb_model.specs.Ports as spec;
ghost use Rattle.rb_model.specs.declared.block.Block.{Block as BlockOf};
ghost use Rattle.rb_model.specs.Sound.{IsSound};
ghost use Rattle.gen_ports.specs.Laid.{AreInputs};
ghost use Rattle.gen_front.specs.Netlist.{IsNetlistOf};
ghost use Rattle.rb_model.specs.Run.{apb};
ghost use Rattle.gen_apb.specs.Pins.{HasBusPins};
ghost use Rattle.gen_apb.specs.Built.{IsBuilt};

use crate::data::data_node;
use crate::front::bus_front;
use crate::outputs::bus_outputs;
use crate::pins::BusPins;
use gen_core::core;
use gen_ports::port_nodes;
use rb_base::NoMemory;
use rb_model::{Block, names_differ, ports};
use rtl_net::{Id, Netlist};
use std::alloc::Global;

/// The name of a block's module.
fn module_name(alloc: Global, block: &Block) -> Result<Vec<u8>, NoMemory>
    ensures { IfOk result (λ name. name.items ≡ spec.module_name block.now) }
{
    let mut name = Vec::new(alloc);
    name.extend_from_slice(&block.name.bytes)?;
    name.extend_from_slice(b"_regs")?;
    Ok(name)
}

/// The pins of the bus, which stand before all other inputs than the clock.
fn bus_pins(block: &Block, pins: &[Id]) -> BusPins
    requires sound { IsSound block.now }
    requires pins { (net : Net) × AreInputs net pins.now (spec.input_pins block.now) }
    ensures { (net : Net) → AreInputs net pins.now (spec.input_pins block.now) → HasBusPins net result }
{
    BusPins {
        resetn: pins[0],
        address: pins[1],
        select: pins[2],
        enable: pins[3],
        write: pins[4],
        data_in: pins[5],
    }
}

/// Builds a block's ports, its bus and its core into an empty netlist.
fn build(alloc: Global, net: &mut Netlist, block: &Block) -> Result<(), NoMemory>
    requires sound { IsSound block.now }
    requires seats { net.old.seats ≡ [] }
    requires registers { registers_of net.old.nodes ≡ [] }
    requires undriven { undriven net.old.nodes ≡ 0 }
    ensures name { OnOk result (net.new.name ≡ net.old.name) }
    ensures built { OnOk result (IsBuilt block.now net.new) }
{
    names_differ();
    let ports = ports(alloc, block)?;
    let pins = port_nodes(alloc, net, &ports)?;
    let bus = bus_pins(block, &pins);
    let front = bus_front(alloc, net, block, bus)?;
    let answer = core(alloc, net, block, &pins, front.inlet)?;
    let shown = data_node(net, bus.resetn, front.closes, answer)?;
    bus_outputs(net, front.ready, shown, front.error)?;
    Ok(())
}

/// The netlist of a block's module behind an APB slave port (IHI 0024B), with no or one wait state as the block says: of the block's
/// name, with its ports in order and the registers of its kept values, and from any start, for any vectors that keep the protocol, with
/// the outputs of the block's machine. The only error is want of memory.
pub fn apb(alloc: Global, block: &Block) -> Result<Netlist, NoMemory>
    requires { IsSound block.now }
    ensures { IfOk result (λ net. IsNetlistOf net (apb block.now)) }
{
    names_differ();
    let name = module_name(alloc, block)?;
    let mut net = Netlist::new(alloc, &name)?;
    build(alloc, &mut net, block)?;
    // The proof cites what holds of each netlist, which it knows where the nodes are read.
    let _nodes = net.nodes();
    Ok(net)
}
