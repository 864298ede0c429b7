//! Outputs that show items.

ghost use Rattle.std.specs.Prelude.{◌≡◌, OnOk, Contains, map};
ghost use Rattle.rtl_net.specs.Net.{Extends};
ghost use Rattle.rtl_net.specs.Ports.{IsFree};
ghost use Rattle.rb_model.specs.Ports.{Outlet, outlets};
ghost use Rattle.gen_scene.specs.Bases.{IsBase};
ghost use Rattle.gen_scene.specs.Items.{IsItem};
ghost use Rattle.gen_core.specs.Ties.{SeatsTaken, Shows, outlet_pin};

use block_plan::item_place;
use gen_scene::Base;
use rb_base::NoMemory;
use rb_model::names_differ;
use rtl_net::{Id, Netlist};

/// Adds the block's outputs behind those of the bus, in port order, or takes their seats. Each shows its item's node, which stands
/// in `items` by its place. The only error is want of memory, after which the netlist has some of the outputs.
pub fn show_nodes(net: &mut Netlist, base: &Base, items: &[Id]) -> Result<(), NoMemory>
    requires base { IsBase net.old base.now }
    requires items { (o : Outlet) → Contains (outlets base.now.block.now) o → IsItem base.now.block.now base.now.inlet net.old items.now o.item }
    requires free { (o : Outlet) → Contains (outlets base.now.block.now) o → IsFree net.old o.name o.width }
    ensures older { Extends net.old net.new }
    ensures name { net.new.name ≡ net.old.name }
    ensures nodes { net.new.nodes ≡ net.old.nodes }
    ensures seats { OnOk result (SeatsTaken net.old.seats net.new.seats (map outlet_pin (outlets base.now.block.now))) }
    ensures shown { OnOk result (Shows base.now.block.now base.now.inlet net.new) }
{
    names_differ();
    for outlet in &base.plan.outlets {
        let id = items[item_place(outlet.item)];
        net.output(&outlet.name.bytes, id)?;
    }
    Ok(())
}
