//! Registers that PRESETn clears.

ghost use Rattle.std.specs.Prelude.{◌≡◌, ◌+◌, ◌++◌, IfOk, OnOk, length, map};
ghost use Rattle.rtl_net.specs.Net.{Extends, HasClock, Keeps, registers_of, undriven};
ghost use Rattle.gen_ports.specs.Registers.{AreCleared, CanAdd, IsResetn, by_resetn, pin_of};

use crate::pin::BusPin;
use rb_base::NoMemory;
use rtl_net::{Id, NetReset, Netlist};
use std::alloc::Global;

/// How PRESETn clears a register.
fn cleared_by(resetn: Id) -> NetReset
    ensures { result ≡ by_resetn resetn }
{
    NetReset::Async {
        pin: resetn,
        low: true,
        value: 0,
    }
}

/// Adds registers of these names and widths, in order, which PRESETn clears and which are still to be driven. The only error is want of
/// memory, after which the netlist has some of them.
pub fn cleared_registers(
    alloc: Global,
    net: &mut Netlist,
    resetn: Id,
    rows: &[BusPin],
) -> Result<Vec<Id>, NoMemory>
    requires clock { HasClock net.old }
    requires resetn { IsResetn net.old resetn }
    requires rows { CanAdd net.old (map pin_of rows.now) }
    ensures older { Extends net.old net.new }
    ensures name { net.new.name ≡ net.old.name }
    ensures keeps { Keeps net.old net.new }
    ensures seats { net.new.seats ≡ net.old.seats }
    ensures registers { OnOk result (registers_of net.new.nodes ≡ registers_of net.old.nodes ++ map pin_of rows.now) }
    ensures undriven { OnOk result (undriven net.new.nodes ≡ undriven net.old.nodes + length rows.now) }
    ensures cleared { IfOk result (λ ids. AreCleared net.new resetn (map pin_of rows.now) ids.items) }
{
    let mut ids = Vec::new(alloc);
    for row in rows {
        let id = net.register(row.name, row.width, cleared_by(resetn))?;
        ids.push(id)?;
    }
    Ok(ids)
}
