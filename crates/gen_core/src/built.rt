//! A block built into a netlist.

ghost use Rattle.std.specs.Prelude.{◌≡◌, ◌+◌, ◌++◌, IfOk, OnOk, Contains, length, map};
ghost use Rattle.rtl_net.specs.Net.{Extends, HasClock, registers_of, undriven};
ghost use Rattle.rtl_net.specs.Ports.{IsFree, IsNew};
ghost use Rattle.rb_model.specs.Kept.{Kept, register_name, field_kept, kept_pin};
ghost use Rattle.rb_model.specs.Ports.{Outlet, outlets};
ghost use Rattle.rb_model.specs.Sound.{IsSound};
ghost use Rattle.gen_scene.specs.Bases.{HasInlet, HasPins, IsBase};
ghost use Rattle.gen_core.specs.Ties.{AreAwaiting, SeatsTaken, outlet_pin};
ghost use Rattle.gen_core.specs.Core.{IsCore};

use crate::drives::drive_nodes;
use crate::nodes::block_nodes;
use crate::shows::show_nodes;
use block_plan::Plan;
use gen_scene::{Base, Inlet, registers};
use rb_base::NoMemory;
use rb_model::{Block, names_differ};
use rtl_net::{Id, Netlist};
use std::alloc::Global;

/// Adds the nodes of a block whose registers are there, drives those, and shows the outputs.
fn tied(alloc: Global, net: &mut Netlist, base: &Base) -> Result<Id, NoMemory>
    requires base { IsBase net.old base.now }
    requires awaits { AreAwaiting base.now.block.now base.now.plan.now base.now.pins.now net.old base.now.kept.now }
    requires free { (o : Outlet) → Contains (outlets base.now.block.now) o → IsFree net.old o.name o.width }
    ensures older { Extends net.old net.new }
    ensures name { net.new.name ≡ net.old.name }
    ensures registers { OnOk result (registers_of net.new.nodes ≡ registers_of net.old.nodes) }
    ensures undriven { OnOk result (undriven net.new.nodes + length (field_kept base.now.block.now) ≡ undriven net.old.nodes) }
    ensures seats { OnOk result (SeatsTaken net.old.seats net.new.seats (map outlet_pin (outlets base.now.block.now))) }
    ensures core { IfOk result (λ id. IsCore base.now.block.now base.now.inlet net.new id) }
{
    let parts = block_nodes(alloc, net, base)?;
    drive_nodes(net, base, &parts.taken.nexts);
    show_nodes(net, base, &parts.items)?;
    Ok(parts.taken.answer)
}

/// Adds a block's behaviour to a netlist that has the block's input pins, in the order of their places, and the nodes of an access:
/// a register for each value that a field keeps, in the order of the fields, what drives it, and the outputs that show items. The
/// answer is the node, of 32 bits, of the data that the access reads, which is 0 where it reads none. Of a bus's own pins only the
/// name counts, since the access is told by its nodes. The only error is want of memory, after which the netlist has some of it.
pub fn core(
    alloc: Global,
    net: &mut Netlist,
    block: &Block,
    pins: &[Id],
    inlet: Inlet,
) -> Result<Id, NoMemory>
    requires sound { IsSound block.now }
    requires clock { HasClock net.old }
    requires pins { HasPins block.now net.old pins.now }
    requires inlet { HasInlet net.old inlet }
    requires registers { (k : Kept) → Contains (field_kept block.now) k → IsNew net.old (register_name block.now k) }
    requires outputs { (o : Outlet) → Contains (outlets block.now) o → IsFree net.old o.name o.width }
    ensures older { Extends net.old net.new }
    ensures name { net.new.name ≡ net.old.name }
    ensures registers { OnOk result (registers_of net.new.nodes ≡ registers_of net.old.nodes ++ map (kept_pin block.now) (field_kept block.now)) }
    ensures undriven { OnOk result (undriven net.new.nodes ≡ undriven net.old.nodes) }
    ensures seats { OnOk result (SeatsTaken net.old.seats net.new.seats (map outlet_pin (outlets block.now))) }
    ensures core { IfOk result (IsCore block.now inlet net.new) }
{
    names_differ();
    let plan = Plan::new(alloc, block)?;
    let kept = registers(alloc, net, block, &plan, pins)?;
    let base = Base {
        block,
        plan: &plan,
        inlet,
        pins,
        kept: &kept,
    };
    let answer = tied(alloc, net, &base)?;
    Ok(answer)
}
