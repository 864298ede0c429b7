//! The text of a whole module.

ghost use Rattle.std.specs.Prelude.{◌≡◌, ◌<◌, ◌≤◌, ◌++◌, ◌+◌, ◌==◌, if◌then◌else◌, ℕ, length, codes, OnOk, OnErr, slice_get, Some};
ghost use Rattle.rb_edge.specs.Count.{Rose};
ghost use Rattle.rb_edge.specs.Sink.{Takes, TakesPart};
ghost use Rattle.rtl_net.specs.Net.{Stands};
ghost use Rattle.rtl_net.specs.Made.{IsMade, IsTakenBy};
ghost use Rattle.v_design.specs.Tree.{dir_word};
ghost use Rattle.v_design.specs.Header.{port_text, ports_text, header};
ghost use Rattle.v_printer.specs.Module.{numbered, node_name, ports, port_of, side_of};
ghost use Rattle.v_printer.specs.Layout.{port_line, shown_text, text_of};
ghost use Rattle.v_printer.specs.TextOf.{IsWhole, IsTextOf};
ghost use Rattle.rb_edge.specs.Flows.{Flows};

use crate::expr::put_name;
use crate::lines::{put_range, put_section};
use crate::section::Section;
use crate::write::put;
use rb_edge::{Failed, Page, Sink};
use rtl_net::{Id, Netlist, Occupant, Seat};

/// The word of a port's side.
fn side_word(taken: Option<Occupant>) -> &'static [u8]
    ensures { result.now ≡ dir_word (side_of taken) }
{
    match taken {
        Some(Occupant::Output(_)) => b"output",
        _ => b"input",
    }
}

/// Writes a port of this name and width in bits.
fn put_port<K: Sink>(
    page: &mut Page,
    out: &mut K,
    taken: Option<Occupant>,
    width: u8,
    name: &[u8],
) -> Result<(), Failed>
    requires { 0 < width }
    ensures { Flows (K.told out.old) (K.told out.new) (K.faults out.old) (K.faults out.new)
        page.old page.new result
        (port_text (record { dir = side_of taken; name = name.now; width = width })) }
{
    put(page, out, b"  ")?;
    put(page, out, side_word(taken))?;
    put(page, out, b" ")?;
    put_range(page, out, width)?;
    put(page, out, name)
}

/// Writes the port of a seat.
fn put_seat<K: Sink>(page: &mut Page, out: &mut K, seat: &Seat) -> Result<(), Failed>
    requires { 0 < seat.now.width }
    ensures { Flows (K.told out.old) (K.told out.new) (K.faults out.old) (K.faults out.new)
        page.old page.new result (port_text (port_of seat.now)) }
{
    put_port(page, out, seat.taken, seat.width, &seat.name.bytes)
}

/// What ends the line of a port.
fn line_end(last: bool) -> &'static [u8]
    ensures { result.now ≡ (if last then codes "\n" else codes ",\n") }
{
    if last { b"\n" } else { b",\n" }
}

/// Writes the line of a port.
fn put_port_line<K: Sink>(
    page: &mut Page,
    out: &mut K,
    seat: &Seat,
    last: bool,
) -> Result<(), Failed>
    requires { 0 < seat.now.width }
    ensures { Flows (K.told out.old) (K.told out.new) (K.faults out.old) (K.faults out.new)
        page.old page.new result
        (port_text (port_of seat.now) ++ (if last then codes "\n" else codes ",\n")) }
{
    put_seat(page, out, seat)?;
    put(page, out, line_end(last))
}

/// Writes the lines of the ports.
fn put_ports<K: Sink>(page: &mut Page, out: &mut K, net: &Netlist) -> Result<(), Failed>
    requires { IsMade net.now }
    ensures { Flows (K.told out.old) (K.told out.new) (K.faults out.old) (K.faults out.new)
        page.old page.new result (ports_text (ports net.now)) }
{
    let count = net.seats().len();
    for (at, seat) in net.seats().iter().enumerate() {
        put_port_line(page, out, seat, at + 1 == count)?;
    }
    Ok(())
}

/// Writes the header.
fn put_header<K: Sink>(page: &mut Page, out: &mut K, net: &Netlist) -> Result<(), Failed>
    requires { IsMade net.now }
    ensures { Flows (K.told out.old) (K.told out.new) (K.faults out.old) (K.faults out.new)
        page.old page.new result (header net.now.name (ports net.now)) }
{
    put(page, out, b"module ")?;
    put(page, out, net.name())?;
    put(page, out, b" (\n")?;
    put_ports(page, out, net)?;
    put(page, out, b");\n")
}

/// Writes the assignment of an output.
fn put_shown<K: Sink>(
    page: &mut Page,
    out: &mut K,
    net: &Netlist,
    name: &[u8],
    from: Id,
) -> Result<(), Failed>
    requires { from.0 < length net.now.nodes }
    ensures { Flows (K.told out.old) (K.told out.new) (K.faults out.old) (K.faults out.new)
        page.old page.new result
        (codes "  assign " ++ (name.now ++ (codes " = "
        ++ (node_name net.now.nodes from.0 ++ codes ";\n")))) }
{
    put(page, out, b"  assign ")?;
    put(page, out, name)?;
    put(page, out, b" = ")?;
    put_name(page, out, net, from)?;
    put(page, out, b";\n")
}

/// Writes the assignment of a seat that is taken by an output.
fn put_if_shown<K: Sink>(
    page: &mut Page,
    out: &mut K,
    net: &Netlist,
    at: usize,
    seat: &Seat,
) -> Result<(), Failed>
    requires { IsTakenBy net.now seat.now.name seat.now.width seat.now.taken }
    ensures { Flows (K.told out.old) (K.told out.new) (K.faults out.old) (K.faults out.new)
        page.old page.new result (shown_text net.now at seat.now) }
{
    match seat.taken {
        Some(Occupant::Output(from)) => put_shown(page, out, net, &seat.name.bytes, from),
        _ => Ok(()),
    }
}

/// Writes the assignments of the outputs.
fn put_outputs<K: Sink>(page: &mut Page, out: &mut K, net: &Netlist) -> Result<(), Failed>
    requires { IsMade net.now }
    ensures { Flows (K.told out.old) (K.told out.new) (K.faults out.old) (K.faults out.new)
        page.old page.new result (numbered (shown_text net.now) 0 net.now.seats) }
{
    for (at, seat) in net.seats().iter().enumerate() {
        put_if_shown(page, out, net, at, seat)?;
    }
    Ok(())
}

/// Writes the text.
fn put_module<K: Sink>(page: &mut Page, out: &mut K, net: &Netlist) -> Result<(), Failed>
    requires { IsMade net.now }
    ensures { Flows (K.told out.old) (K.told out.new) (K.faults out.old) (K.faults out.new)
        page.old page.new result (text_of net.now) }
{
    put_header(page, out, net)?;
    put_section(page, out, net, Section::Registers)?;
    put_section(page, out, net, Section::Wires)?;
    put_section(page, out, net, Section::Assignments)?;
    put_outputs(page, out, net)?;
    put_section(page, out, net, Section::Blocks)?;
    put(page, out, b"endmodule\n")
}

/// Writes the module of a netlist (IEEE 1364-2005, clause 12.1): its ports in order, its registers and wires, the
/// assignments, and a block for each register at the rising edge of PCLK. The wire of node 7 is `n$7`.
///
/// Its bytes wait on a page of 64 KiB, on the stack, so the sink is called once for many of them. It takes no memory.
/// [`Failed`] comes only where the sink's count of faults rose. Then a proper prefix of the text was taken, and nothing
/// else.
pub fn print<K: Sink>(net: &Netlist, out: &mut K) -> Result<(), Failed>
    requires { IsWhole net.now }
    ensures module { IsTextOf net.now (text_of net.now) }
    ensures whole { OnOk result (Takes (K.told out.old) (K.told out.new) (text_of net.now)) }
    ensures part { OnErr result (TakesPart (K.told out.old) (K.told out.new) (text_of net.now)) }
    ensures later { K.faults out.old ≤ K.faults out.new }
    ensures failed { OnErr result (Rose (K.faults out.old) (K.faults out.new)) }
{
    // The proof cites what holds of each netlist, which it knows where the nodes are read.
    let _nodes = net.nodes();
    let mut page = Page::new();
    put_module(&mut page, out, net)?;
    page.flush(out)
}
