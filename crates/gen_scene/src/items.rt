//! The items of a block, each made once.

ghost use Rattle.std.specs.Prelude.{◌≡◌, IfOk};
ghost use Rattle.rtl_net.specs.Net.{Grows};
ghost use Rattle.rb_model.specs.Items.{made};
ghost use Rattle.rb_model.specs.References.{Each, item_width, refs};
ghost use Rattle.block_plan.specs.Wanted.{IsClosed};
ghost use Rattle.gen_scene.specs.Bases.{IsBase};
ghost use Rattle.gen_scene.specs.Items.{AreMarks, HasItems, IsItem, IsMarked, IsOwn};
ghost use Rattle.gen_scene.specs.Worth.{IsWorth};

use crate::base::Base;
use crate::item_node::item_node;
use crate::scene::Scene;
use block_plan::{is_wanted, item_place, table_len};
use rb_base::NoMemory;
use rb_model::RefItem;
use rtl_net::{Id, Netlist};
use std::alloc::Global;

/// Whether the access of the edge modifies a field, and whether it reads or writes it, of one bit each.
#[derive(Clone, Copy, Debug, PartialEq, Eq)]
pub struct Marks {
    pub modified: Id,
    pub accessed: Id,
}

/// The node of an item, where those that it refers to have theirs in the table.
fn node_in(
    alloc: Global,
    net: &mut Netlist,
    base: &Base,
    marks: &[Marks],
    table: &[Id],
    item: RefItem,
) -> Result<Id, NoMemory>
    requires base { IsBase net.old base.now }
    requires refs { Each (IsItem base.now.block.now base.now.inlet net.old table.now) (refs base.now.block.now item) }
    requires own { IsOwn base.now.block.now item }
    requires marked { IsMarked base.now.block.now base.now.inlet net.old marks.now item }
    ensures older { Grows net.old net.new }
    ensures name { net.new.name ≡ net.old.name }
    ensures worth { IfOk result (λ id. IsWorth base.now.block.now base.now.inlet net.new id (item_width base.now.block.now item) (λ n v. made base.now.block.now n v item)) }
{
    let scene = Scene { base, items: table };
    item_node(alloc, net, &scene, marks, item)
}

/// The nodes of the items that are wanted, by their places. `marks` has the marks of each field, which count where `wanted` has
/// them. The only error is want of memory, after which the netlist has some of the nodes.
pub fn item_nodes(
    alloc: Global,
    net: &mut Netlist,
    base: &Base,
    marks: &[Marks],
    wanted: &[bool],
) -> Result<Vec<Id>, NoMemory>
    requires base { IsBase net.old base.now }
    requires marks { AreMarks base.now.block.now base.now.inlet net.old wanted.now marks.now }
    requires closed { IsClosed base.now.block.now wanted.now }
    ensures older { Grows net.old net.new }
    ensures name { net.new.name ≡ net.old.name }
    ensures items { IfOk result (λ table. HasItems base.now.block.now base.now.inlet net.new wanted.now table.items) }
{
    let block = base.block;
    let mut table = vec![in alloc; Id(0); table_len(&block.order.items)]?;
    for item in &block.order.items {
        if !is_wanted(wanted, *item) {
            continue;
        }
        let id = node_in(alloc, net, base, marks, &table, *item)?;
        table[item_place(*item)] = id;
    }
    Ok(table)
}
