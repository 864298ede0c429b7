//! An item's node, from those that it refers to.

ghost use Rattle.std.specs.Prelude.{◌≡◌, IfOk};
ghost use Rattle.rtl_net.specs.Net.{Grows};
ghost use Rattle.rb_model.specs.Items.{made};
ghost use Rattle.rb_model.specs.References.{item_width, refs};
ghost use Rattle.gen_scene.specs.Bases.{IsBase};
ghost use Rattle.gen_scene.specs.Fields.{HasNodes};
ghost use Rattle.gen_scene.specs.Items.{IsMarked, IsOwn};
ghost use Rattle.gen_scene.specs.Worth.{IsWorth};

use crate::base::{field_at, signal_at};
use crate::items::Marks;
use crate::lines::line;
use crate::making::{decr_threshold, field_overflow, field_underflow, field_value, incr_threshold};
use crate::scene::Scene;
use net_gates::{nonzero, present};
use rb_base::NoMemory;
use rb_model::RefItem;
use rtl_net::{Id, NetExpr, Netlist};
use std::alloc::Global;

/// The node of an item, from those that it refers to.
pub(crate) fn item_node(
    alloc: Global,
    net: &mut Netlist,
    scene: &Scene,
    marks: &[Marks],
    item: RefItem,
) -> Result<Id, NoMemory>
    requires base { IsBase net.old scene.now.base.now }
    requires refs { HasNodes net.old scene.now (refs scene.now.base.now.block.now item) }
    requires own { IsOwn scene.now.base.now.block.now item }
    requires marked { IsMarked scene.now.base.now.block.now scene.now.base.now.inlet net.old marks.now item }
    ensures older { Grows net.old net.new }
    ensures name { net.new.name ≡ net.old.name }
    ensures worth { IfOk result (λ id. IsWorth scene.now.base.now.block.now scene.now.base.now.inlet net.new id (item_width scene.now.base.now.block.now item)
        (λ n v. made scene.now.base.now.block.now n v item)) }
{
    let block = scene.base.block;
    match item {
        RefItem::Field(number) => {
            field_value(
                net,
                scene,
                number as usize,
                field_at(block, number as usize),
            )
        }
        RefItem::Signal(number) => {
            let width = signal_at(block, number as usize).width;
            present(net, scene.signal(number as usize), width)
        }
        RefItem::Anded(number) => {
            let value = scene.node(RefItem::Field(number));
            net.fold(NetExpr::All(value))
        }
        RefItem::Ored(number) => {
            let value = scene.node(RefItem::Field(number));
            nonzero(net, value)
        }
        RefItem::Xored(number) => {
            let value = scene.node(RefItem::Field(number));
            net.fold(NetExpr::Odd(value))
        }
        RefItem::IncrThreshold(number) => {
            incr_threshold(net, scene, number, field_at(block, number as usize))
        }
        RefItem::DecrThreshold(number) => {
            decr_threshold(net, scene, number, field_at(block, number as usize))
        }
        RefItem::Overflow(number) => {
            field_overflow(
                net,
                scene,
                number as usize,
                field_at(block, number as usize),
            )
        }
        RefItem::Underflow(number) => {
            field_underflow(
                net,
                scene,
                number as usize,
                field_at(block, number as usize),
            )
        }
        RefItem::SwMod(number) => Ok(marks[number as usize].modified),
        RefItem::SwAcc(number) => Ok(marks[number as usize].accessed),
        RefItem::Intr(number) => line(alloc, net, scene, number, false),
        RefItem::Halt(number) => line(alloc, net, scene, number, true),
    }
}
