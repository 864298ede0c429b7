//! The data of an APB slave port.

ghost use Rattle.std.specs.Prelude.{◌≡◌, ◌++◌, IfOk, OnOk, IsSome, codes};
ghost use Rattle.rtl_net.specs.Net.{Extends, HasClock, Stands, MayStand, registers_of, undriven};
ghost use Rattle.rtl_net.specs.Ports.{IsNew};
ghost use Rattle.rb_model.specs.Ports.{pin};
ghost use Rattle.gen_scene.specs.Bases.{IsPinNode};
ghost use Rattle.gen_apb.specs.Fronts.{ShowsData, data_registers};

use net_gates::{choose, zero};
use rb_base::NoMemory;
use rtl_net::{Id, NetReset, Netlist};

/// What PRDATA shows, of 32 bits: the answer to the access, or with a wait state, where `closes` says that the second vector closes
/// an access, what was answered in the first; the register that keeps this is added, and driven. The only error is want of
/// memory, after which the netlist has some of it.
pub fn data_node(
    net: &mut Netlist,
    resetn: Id,
    closes: Option<Id>,
    answer: Id,
) -> Result<Id, NoMemory>
    requires clock { HasClock net.old }
    requires resetn { IsPinNode net.old resetn (pin (codes "PRESETn") 1) }
    requires closes { MayStand net.old closes }
    requires answer { Stands net.old answer 32 }
    requires new { IsSome closes → IsNew net.old (codes "apb$data") }
    ensures older { OnOk result (Extends net.old net.new) }
    ensures name { OnOk result (net.new.name ≡ net.old.name) }
    ensures seats { OnOk result (net.new.seats ≡ net.old.seats) }
    ensures registers { OnOk result (registers_of net.new.nodes ≡ registers_of net.old.nodes ++ data_registers closes) }
    ensures undriven { OnOk result (undriven net.new.nodes ≡ undriven net.old.nodes) }
    ensures shows { IfOk result (ShowsData net.new closes answer) }
{
    let Some(closes) = closes else {
        return Ok(answer);
    };
    let data = net.register(
        b"apb$data",
        32,
        NetReset::Async {
            pin: resetn,
            low: true,
            value: 0,
        },
    )?;
    let none = zero(net, 32)?;
    let shown = choose(net, closes, data, none)?;
    net.drive(data, answer);
    Ok(shown)
}
