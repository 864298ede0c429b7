//! The lines of declarations, assignments and blocks.

ghost use Rattle.std.specs.Prelude.{◌≡◌, ◌<◌, ◌≤◌, ◌++◌, ◌∷◌, [], ℕ, length, codes, slice_get, Some};
ghost use Rattle.rtl_net.specs.Net.{CanWire, width_in};
ghost use Rattle.rtl_net.specs.Made.{IsMade, IsNodeMade, IsPinBelow};
ghost use Rattle.rtl_net.specs.declared.node.Id.{Id as IdOf};
ghost use Rattle.v_design.specs.Header.{range_text};
ghost use Rattle.v_printer.specs.Module.{numbered, wire_name, node_name, block, term_of};
ghost use Rattle.v_printer.specs.Layout.{term_text, stmt_text, line_text, section_text, negation_text, event_text, test_text, reset_value_text, next_text};
ghost use Rattle.v_design.specs.Tree.{edge_word};
ghost use Rattle.v_printer.specs.declared.section.Section.TheVariants as sections;
ghost use Rattle.rb_edge.specs.Flows.{Flows};

use crate::expr::{put_constant, put_expr, put_name, put_wire_name};
use crate::section::Section;
use crate::write::{put, put_decimal};
use rb_edge::{Failed, Page, Sink};
use rtl_net::{Id, NetExpr, NetNode, NetReset, Netlist};

/// Writes the range of a net of a width in bits, and nothing where it is 1.
pub(crate) fn put_range<K: Sink>(page: &mut Page, out: &mut K, width: u8) -> Result<(), Failed>
    requires { 0 < width }
    ensures { Flows (K.told out.old) (K.told out.new) (K.faults out.old) (K.faults out.new)
        page.old page.new result (range_text width) }
{
    if width == 1 {
        return Ok(());
    }
    put(page, out, b"[")?;
    put_decimal(page, out, width - 1)?;
    put(page, out, b":0] ")
}

/// Writes the declaration of a register.
fn put_register<K: Sink>(page: &mut Page, out: &mut K, name: &[u8], width: u8) -> Result<(), Failed>
    requires { 0 < width }
    ensures { Flows (K.told out.old) (K.told out.new) (K.faults out.old) (K.faults out.new)
        page.old page.new result (codes "  reg " ++ (range_text width ++ (name.now ++ codes ";\n"))) }
{
    put(page, out, b"  reg ")?;
    put_range(page, out, width)?;
    put(page, out, name)?;
    put(page, out, b";\n")
}

/// Writes the declaration of a wire.
fn put_wire<K: Sink>(page: &mut Page, out: &mut K, number: usize, width: u8) -> Result<(), Failed>
    requires { 0 < width }
    ensures { Flows (K.told out.old) (K.told out.new) (K.faults out.old) (K.faults out.new)
        page.old page.new result
        (codes "  wire " ++ (range_text width ++ (wire_name number ++ codes ";\n"))) }
{
    put(page, out, b"  wire ")?;
    put_range(page, out, width)?;
    put_wire_name(page, out, number)?;
    put(page, out, b";\n")
}

/// Writes the assignment of a wire.
fn put_assignment<K: Sink>(
    page: &mut Page,
    out: &mut K,
    net: &Netlist,
    number: usize,
    expr: NetExpr,
) -> Result<(), Failed>
    requires { CanWire net.now expr }
    ensures { Flows (K.told out.old) (K.told out.new) (K.faults out.old) (K.faults out.new)
        page.old page.new result
        (codes "  assign " ++ (wire_name number ++ (codes " = "
        ++ (term_text (term_of net.now expr) ++ codes ";\n")))) }
{
    put(page, out, b"  assign ")?;
    put_wire_name(page, out, number)?;
    put(page, out, b" = ")?;
    put_expr(page, out, net, expr)?;
    put(page, out, b";\n")
}

/// The word of the edge at which a reset acts.
fn edge_word(low: bool) -> &'static [u8]
    ensures { result.now ≡ edge_word low }
{
    if low { b"negedge" } else { b"posedge" }
}

/// What stands before the pin in the test of a reset.
fn negation(low: bool) -> &'static [u8]
    ensures { result.now ≡ negation_text low }
{
    if low { b"!" } else { b"" }
}

/// Writes the event of a block with a reset.
fn put_event<K: Sink>(
    page: &mut Page,
    out: &mut K,
    net: &Netlist,
    pin: Id,
    low: bool,
) -> Result<(), Failed>
    requires { pin.0 < length net.now.nodes }
    ensures { Flows (K.told out.old) (K.told out.new) (K.faults out.old) (K.faults out.new)
        page.old page.new result (event_text low (node_name net.now.nodes pin.0)) }
{
    put(page, out, b"  always @(posedge PCLK or ")?;
    put(page, out, edge_word(low))?;
    put(page, out, b" ")?;
    put_name(page, out, net, pin)
}

/// Writes the test of a reset.
fn put_test<K: Sink>(
    page: &mut Page,
    out: &mut K,
    net: &Netlist,
    pin: Id,
    low: bool,
) -> Result<(), Failed>
    requires { pin.0 < length net.now.nodes }
    ensures { Flows (K.told out.old) (K.told out.new) (K.faults out.old) (K.faults out.new)
        page.old page.new result (test_text low (node_name net.now.nodes pin.0)) }
{
    put(page, out, b")\n    if (")?;
    put(page, out, negation(low))?;
    put_name(page, out, net, pin)?;
    put(page, out, b") ")
}

/// Writes what a register takes under its reset, and the word before what it takes else.
fn put_reset_value<K: Sink>(
    page: &mut Page,
    out: &mut K,
    name: &[u8],
    width: u8,
    value: u128,
) -> Result<(), Failed>
    ensures { Flows (K.told out.old) (K.told out.new) (K.faults out.old) (K.faults out.new)
        page.old page.new result (reset_value_text name.now width value) }
{
    put(page, out, name)?;
    put(page, out, b" <= ")?;
    put_constant(page, out, width, value)?;
    put(page, out, b";\n    else ")
}

/// Writes what a register takes.
fn put_next<K: Sink>(
    page: &mut Page,
    out: &mut K,
    net: &Netlist,
    name: &[u8],
    next: Id,
) -> Result<(), Failed>
    requires { next.0 < length net.now.nodes }
    ensures { Flows (K.told out.old) (K.told out.new) (K.faults out.old) (K.faults out.new)
        page.old page.new result (next_text name.now (node_name net.now.nodes next.0)) }
{
    put(page, out, name)?;
    put(page, out, b" <= ")?;
    put_name(page, out, net, next)?;
    put(page, out, b";\n")
}

/// Writes the block of a register without a reset.
fn put_plain_block<K: Sink>(
    page: &mut Page,
    out: &mut K,
    net: &Netlist,
    name: &[u8],
    next: Id,
) -> Result<(), Failed>
    requires { next.0 < length net.now.nodes }
    ensures { Flows (K.told out.old) (K.told out.new) (K.faults out.old) (K.faults out.new)
        page.old page.new result
        (codes "  always @(posedge PCLK) " ++ next_text name.now (node_name net.now.nodes next.0)) }
{
    put(page, out, b"  always @(posedge PCLK) ")?;
    put_next(page, out, net, name, next)
}

/// Writes the event and the test of a reset.
fn put_reset<K: Sink>(
    page: &mut Page,
    out: &mut K,
    net: &Netlist,
    pin: Id,
    low: bool,
) -> Result<(), Failed>
    requires { pin.0 < length net.now.nodes }
    ensures { Flows (K.told out.old) (K.told out.new) (K.faults out.old) (K.faults out.new)
        page.old page.new result
        (event_text low (node_name net.now.nodes pin.0)
        ++ test_text low (node_name net.now.nodes pin.0)) }
{
    put_event(page, out, net, pin, low)?;
    put_test(page, out, net, pin, low)
}

/// Writes what a register takes under its reset, and what it takes else.
fn put_branches<K: Sink>(
    page: &mut Page,
    out: &mut K,
    net: &Netlist,
    name: &[u8],
    width: u8,
    value: u128,
    next: Id,
) -> Result<(), Failed>
    requires { next.0 < length net.now.nodes }
    ensures { Flows (K.told out.old) (K.told out.new) (K.faults out.old) (K.faults out.new)
        page.old page.new result
        (reset_value_text name.now width value
        ++ next_text name.now (node_name net.now.nodes next.0)) }
{
    put_reset_value(page, out, name, width, value)?;
    put_next(page, out, net, name, next)
}

/// Writes the block of a register.
fn put_block<K: Sink>(
    page: &mut Page,
    out: &mut K,
    net: &Netlist,
    name: &[u8],
    width: u8,
    reset: NetReset,
    next: Id,
) -> Result<(), Failed>
    requires stands { next.0 < length net.now.nodes }
    requires resets { IsPinBelow (length net.now.nodes) reset }
    ensures { Flows (K.told out.old) (K.told out.new) (K.faults out.old) (K.faults out.new)
        page.old page.new result (stmt_text (block net.now name.now width reset next)) }
{
    match reset {
        NetReset::None => put_plain_block(page, out, net, name, next),
        NetReset::Async { pin, low, value } => {
            put_reset(page, out, net, pin, low)?;
            put_branches(page, out, net, name, width, value, next)
        }
    }
}

/// Writes the declaration of a node that is a register.
fn put_if_register<K: Sink>(
    page: &mut Page,
    out: &mut K,
    net: &Netlist,
    at: usize,
    node: &NetNode,
) -> Result<(), Failed>
    requires { IsNodeMade net.now at node.now }
    ensures { Flows (K.told out.old) (K.told out.new) (K.faults out.old) (K.faults out.new)
        page.old page.new result (line_text net.now Section.Registers at node.now) }
{
    match node {
        NetNode::Register { name, width, .. } => put_register(page, out, &name.bytes, *width),
        _ => Ok(()),
    }
}

/// Writes the declaration of a node that is a wire.
fn put_if_wire<K: Sink>(
    page: &mut Page,
    out: &mut K,
    net: &Netlist,
    at: usize,
    node: &NetNode,
) -> Result<(), Failed>
    requires made { IsMade net.now }
    requires node { slice_get net.now.nodes at ≡ Some node.now }
    ensures { Flows (K.told out.old) (K.told out.new) (K.faults out.old) (K.faults out.new)
        page.old page.new result (line_text net.now Section.Wires at node.now) }
{
    match node {
        NetNode::Wire(_) => put_wire(page, out, at, net.width(Id(at))),
        _ => Ok(()),
    }
}

/// Writes the assignment of a node that is a wire.
fn put_if_assigned<K: Sink>(
    page: &mut Page,
    out: &mut K,
    net: &Netlist,
    at: usize,
    node: &NetNode,
) -> Result<(), Failed>
    requires { IsNodeMade net.now at node.now }
    ensures { Flows (K.told out.old) (K.told out.new) (K.faults out.old) (K.faults out.new)
        page.old page.new result (line_text net.now Section.Assignments at node.now) }
{
    match node {
        NetNode::Wire(expr) => put_assignment(page, out, net, at, *expr),
        _ => Ok(()),
    }
}

/// Writes the block of a node that is a driven register.
fn put_if_driven<K: Sink>(
    page: &mut Page,
    out: &mut K,
    net: &Netlist,
    at: usize,
    node: &NetNode,
) -> Result<(), Failed>
    requires made { IsNodeMade net.now at node.now }
    requires within { at < length net.now.nodes }
    ensures { Flows (K.told out.old) (K.told out.new) (K.faults out.old) (K.faults out.new)
        page.old page.new result (line_text net.now Section.Blocks at node.now) }
{
    match node {
        NetNode::Register {
            name,
            width,
            reset,
            next,
        } => match next {
            Some(next) => put_block(page, out, net, &name.bytes, *width, *reset, *next),
            None => Ok(()),
        },
        _ => Ok(()),
    }
}

/// Writes the lines of a node in a section.
fn put_line<K: Sink>(
    page: &mut Page,
    out: &mut K,
    net: &Netlist,
    section: Section,
    at: usize,
    node: &NetNode,
) -> Result<(), Failed>
    requires made { IsMade net.now }
    requires node { slice_get net.now.nodes at ≡ Some node.now }
    ensures { Flows (K.told out.old) (K.told out.new) (K.faults out.old) (K.faults out.new)
        page.old page.new result (line_text net.now section at node.now) }
{
    match section {
        Section::Registers => put_if_register(page, out, net, at, node),
        Section::Wires => put_if_wire(page, out, net, at, node),
        Section::Assignments => put_if_assigned(page, out, net, at, node),
        Section::Blocks => put_if_driven(page, out, net, at, node),
    }
}

/// Writes the lines of a section.
pub(crate) fn put_section<K: Sink>(
    page: &mut Page,
    out: &mut K,
    net: &Netlist,
    section: Section,
) -> Result<(), Failed>
    ensures { Flows (K.told out.old) (K.told out.new) (K.faults out.old) (K.faults out.new)
        page.old page.new result (section_text net.now section) }
{
    for (at, node) in net.nodes().iter().enumerate() {
        put_line(page, out, net, section, at, node)?;
    }
    Ok(())
}
