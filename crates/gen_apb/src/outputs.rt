//! What the outputs of a bus show.

ghost use Rattle.std.specs.Prelude.{◌≡◌, OnOk, codes};
ghost use Rattle.rtl_net.specs.Net.{Extends, Stands, registers_of, undriven};
ghost use Rattle.rtl_net.specs.Ports.{IsFree};
ghost use Rattle.gen_core.specs.Ties.{SeatsTaken};
ghost use Rattle.gen_apb.specs.Built.{ShowsBus, bus_shown};

use rb_base::NoMemory;
use rtl_net::{Id, Netlist};

/// Shows a bus's outputs (IHI 0024B, 4.1) at their seats.
pub(crate) fn bus_outputs(
    net: &mut Netlist,
    ready: Id,
    answered: Id,
    failed: Id,
) -> Result<(), NoMemory>
    requires ready { Stands net.old ready 1 }
    requires answered { Stands net.old answered 32 }
    requires failed { Stands net.old failed 1 }
    requires free_ready { IsFree net.old (codes "PREADY") 1 }
    requires free_data { IsFree net.old (codes "PRDATA") 32 }
    requires free_error { IsFree net.old (codes "PSLVERR") 1 }
    ensures older { OnOk result (Extends net.old net.new) }
    ensures name { OnOk result (net.new.name ≡ net.old.name) }
    ensures registers { OnOk result (registers_of net.new.nodes ≡ registers_of net.old.nodes) }
    ensures undriven { OnOk result (undriven net.new.nodes ≡ undriven net.old.nodes) }
    ensures seats { OnOk result (SeatsTaken net.old.seats net.new.seats bus_shown) }
    ensures shows { OnOk result (ShowsBus net.new ready answered failed) }
{
    net.output(b"PREADY", ready)?;
    net.output(b"PRDATA", answered)?;
    net.output(b"PSLVERR", failed)?;
    Ok(())
}
