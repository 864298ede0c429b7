//! Outputs shown one after the other.

ghost use Rattle.std.specs.Prelude.{◌≡◌, OnOk, map};
ghost use Rattle.rtl_net.specs.Net.{Extends};
ghost use Rattle.gen_ports.specs.Registers.{HaveWidths, pin_of};
ghost use Rattle.gen_ports.specs.Shows.{CanShow, ShowNodes, shown_seats};

use crate::pin::BusPin;
use rb_base::NoMemory;
use rtl_net::{Id, Netlist};

/// Adds outputs of these names and widths, or takes their seats; each shows its node, both in order. The only error is want of memory,
/// after which the netlist has some of them.
pub fn show_in_turn(net: &mut Netlist, rows: &[BusPin], ids: &[Id]) -> Result<(), NoMemory>
    requires rows { CanShow net.old (map pin_of rows.now) }
    requires nodes { HaveWidths net.old (map pin_of rows.now) ids.now }
    ensures older { Extends net.old net.new }
    ensures name { net.new.name ≡ net.old.name }
    ensures nodes { net.new.nodes ≡ net.old.nodes }
    ensures seats { OnOk result (net.new.seats ≡ shown_seats net.old.seats (map pin_of rows.now) ids.now) }
    ensures shown { OnOk result (ShowNodes net.new (map pin_of rows.now) ids.now) }
{
    for (number, id) in ids.iter().enumerate() {
        net.output(rows[number].name, *id)?;
    }
    Ok(())
}
