//! Registers driven by what they take.

ghost use Rattle.std.specs.Prelude.{◌≡◌, ◌+◌, length};
ghost use Rattle.rtl_net.specs.Net.{Extends, registers_of, undriven};
ghost use Rattle.rb_model.specs.Kept.{field_kept};
ghost use Rattle.gen_scene.specs.Bases.{IsBase};
ghost use Rattle.gen_clock.specs.Edges.{AreNexts};
ghost use Rattle.gen_core.specs.Ties.{AreAwaiting, MovesOn};

use gen_scene::Base;
use rb_model::names_differ;
use rtl_net::{Id, Netlist};

/// Drives the registers of what the fields keep, each by the node of what it takes, both in the order of the plan. After each edge
/// they contain what the block's machine keeps next. It takes time in proportion to the number of registers.
pub fn drive_nodes(net: &mut Netlist, base: &Base, nexts: &[Id])
    requires base { IsBase net.old base.now }
    requires awaits { AreAwaiting base.now.block.now base.now.plan.now base.now.pins.now net.old base.now.kept.now }
    requires nexts { AreNexts base.now.block.now base.now.inlet net.old nexts.now }
    ensures older { Extends net.old net.new }
    ensures name { net.new.name ≡ net.old.name }
    ensures seats { net.new.seats ≡ net.old.seats }
    ensures registers { registers_of net.new.nodes ≡ registers_of net.old.nodes }
    ensures undriven { undriven net.new.nodes + length (field_kept base.now.block.now) ≡ undriven net.old.nodes }
    ensures moved { MovesOn base.now.block.now base.now.inlet net.new }
{
    names_differ();
    for (number, next) in nexts.iter().enumerate() {
        net.drive(base.kept[number], *next);
    }
}
