//! Ports laid one after the other.

ghost use Rattle.std.specs.Prelude.{◌≡◌, ◌++◌, ◌∷◌, [], ℕ, List, IsTrue, IfOk, OnOk, map};
ghost use Rattle.std.specs.Bool.{OnTrue};
ghost use Rattle.std.specs.Str.{bytes_eq};
ghost use Rattle.v_design.specs.Design.{inputs_among, outputs_among};
ghost use Rattle.rtl_net.specs.Names.{Lacks, clock, is_net_name};
ghost use Rattle.rtl_net.specs.Net.{Extends, HasClock, IsWidth, registers_of, undriven};
ghost use Rattle.rtl_net.specs.Ports.{IsFree, IsNew};
ghost use Rattle.rtl_net.specs.declared.node.Seat.{Seat};
ghost use Rattle.rb_base.specs.declared.ports.Dir.TheVariants.{In};
ghost use Rattle.rb_model.specs.References.{Each};
ghost use Rattle.gen_ports.specs.Laid.{AreInputs, AreSeatsOf, CanLay, HasPort, IsSeatOf};

use rb_base::{Dir, NoMemory, Port};
use rtl_net::{Id, Netlist};
use std::alloc::Global;

/// Adds a port: an input, whose node is put behind the others unless it is the clock, or a free seat for an output.
fn add(net: &mut Netlist, ids: &mut Vec<Id>, port: &Port) -> Result<(), NoMemory>
    requires named { IsTrue (is_net_name port.now.name) }
    requires new { IsNew net.old port.now.name }
    requires wide { IsWidth port.now.width }
    requires clock { OnTrue (bytes_eq port.now.name clock) (port.now.width ≡ 1) }
    ensures older { Extends net.old net.new }
    ensures name { net.new.name ≡ net.old.name }
    ensures registers { registers_of net.new.nodes ≡ registers_of net.old.nodes }
    ensures undriven { undriven net.new.nodes ≡ undriven net.old.nodes }
    ensures clocked { OnOk result (port.now.dir ≡ In → OnTrue (bytes_eq port.now.name clock) (HasClock net.new)) }
    ensures seats { OnOk result ((s : Seat) × (net.new.seats ≡ net.old.seats ++ s ∷ []) × IsSeatOf s port.now) }
    ensures pins { OnOk result (HasPort net.new port.now ids.old.items ids.new.items) }
{
    let name: &[u8] = &port.name.bytes;
    match port.dir {
        Dir::In => {
            let id = net.input(name, port.width)?;
            if name != b"PCLK".as_slice() {
                ids.push(id)?;
            }
        }
        Dir::Out => net.seat(name, port.width)?,
    }
    Ok(())
}

/// Lays ports into a netlist without ports and registers, in order: an input for each input, and a free seat for each output. The answer
/// has the nodes of the inputs, without the clock, in order. The only error is want of memory, after which the netlist has some of the
/// ports.
pub fn port_nodes(alloc: Global, net: &mut Netlist, ports: &[Port]) -> Result<Vec<Id>, NoMemory>
    requires ports { CanLay ports.now }
    requires first { net.old.seats ≡ [] }
    requires plain { registers_of net.old.nodes ≡ [] }
    ensures older { Extends net.old net.new }
    ensures name { net.new.name ≡ net.old.name }
    ensures registers { registers_of net.new.nodes ≡ [] }
    ensures undriven { undriven net.new.nodes ≡ undriven net.old.nodes }
    ensures clock { OnOk result (HasClock net.new) }
    ensures seats { OnOk result (AreSeatsOf net.new.seats ports.now) }
    ensures inputs { IfOk result (λ ids. AreInputs net.new ids.items (inputs_among ports.now)) }
    ensures outputs { OnOk result (Each (λ p. IsFree net.new p.name p.width) (outputs_among ports.now)) }
    ensures others { OnOk result ((name : List ℕ) → Lacks (map (λ p. p.name) ports.now) name → IsNew net.new name) }
{
    let mut ids = Vec::new(alloc);
    for port in ports {
        add(net, &mut ids, port)?;
    }
    Ok(ids)
}
