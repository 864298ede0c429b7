//! Registers driven one after the other.

ghost use Rattle.std.specs.Prelude.{◌≡◌, ◌+◌, length, map};
ghost use Rattle.rtl_net.specs.Net.{Extends, registers_of, undriven};
ghost use Rattle.gen_ports.specs.Registers.{AreCleared, HaveNames, HaveWidths, IsResetn, TakeNexts, pin_of};

use crate::pin::BusPin;
use rtl_net::{Id, Netlist};

/// Drives registers that PRESETn clears, each by the node that it takes at an edge without reset, both in order. Takes no memory.
pub fn drive_in_turn(net: &mut Netlist, resetn: Id, rows: &[BusPin], ids: &[Id], nexts: &[Id])
    requires resetn { IsResetn net.old resetn }
    requires names { HaveNames (map pin_of rows.now) }
    requires cleared { AreCleared net.old resetn (map pin_of rows.now) ids.now }
    requires nexts { HaveWidths net.old (map pin_of rows.now) nexts.now }
    ensures older { Extends net.old net.new }
    ensures name { net.new.name ≡ net.old.name }
    ensures seats { net.new.seats ≡ net.old.seats }
    ensures registers { registers_of net.new.nodes ≡ registers_of net.old.nodes }
    ensures undriven { undriven net.new.nodes + length rows.now ≡ undriven net.old.nodes }
    ensures taken { TakeNexts net.new (map pin_of rows.now) nexts.now }
{
    for (number, next) in nexts.iter().enumerate() {
        net.drive(ids[number], *next);
    }
}
