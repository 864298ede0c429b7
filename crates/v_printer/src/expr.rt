//! Names of nodes and expressions over them.

ghost use Rattle.std.specs.Prelude.{◌≡◌, ◌<◌, ◌≤◌, ◌++◌, length, codes, decimal};
ghost use Rattle.rtl_net.specs.Net.{Has, CanWire, width_in};
ghost use Rattle.v_printer.specs.Module.{node_name, wire_name, selected, term_of};
ghost use Rattle.v_printer.specs.Layout.{term_text, constant_text};
ghost use Rattle.rb_edge.specs.Flows.{Flows};

use crate::write::{put, put_decimal, put_hex};
use rb_edge::{Failed, Page, Sink};
use rtl_net::{Id, NetExpr, NetNode, Netlist};

/// Writes the name of the wire of a number.
pub(crate) fn put_wire_name<K: Sink>(
    page: &mut Page,
    out: &mut K,
    number: usize,
) -> Result<(), Failed>
    ensures { Flows (K.told out.old) (K.told out.new) (K.faults out.old) (K.faults out.new)
        page.old page.new result (wire_name number) }
{
    put(page, out, b"n$")?;
    put_decimal(page, out, number)
}

/// Writes the name of a node.
pub(crate) fn put_name<K: Sink>(
    page: &mut Page,
    out: &mut K,
    net: &Netlist,
    id: Id,
) -> Result<(), Failed>
    requires { id.0 < length net.now.nodes }
    ensures { Flows (K.told out.old) (K.told out.new) (K.faults out.old) (K.faults out.new)
        page.old page.new result (node_name net.now.nodes id.0) }
{
    match &net.nodes()[id.0] {
        NetNode::Input { name, .. } => put(page, out, &name.bytes),
        NetNode::Register { name, .. } => put(page, out, &name.bytes),
        NetNode::Wire(_) => put_wire_name(page, out, id.0),
    }
}

/// Writes a constant of a width in bits.
pub(crate) fn put_constant<K: Sink>(
    page: &mut Page,
    out: &mut K,
    width: u8,
    value: u128,
) -> Result<(), Failed>
    ensures { Flows (K.told out.old) (K.told out.new) (K.faults out.old) (K.faults out.new)
        page.old page.new result (constant_text width value) }
{
    put_decimal(page, out, width)?;
    put(page, out, b"'h")?;
    put_hex(page, out, value)
}

/// Writes the number of a bit in brackets.
fn put_bit<K: Sink>(page: &mut Page, out: &mut K, bit: u8) -> Result<(), Failed>
    ensures { Flows (K.told out.old) (K.told out.new) (K.faults out.old) (K.faults out.new)
        page.old page.new result (codes "[" ++ (decimal bit ++ codes "]")) }
{
    put(page, out, b"[")?;
    put_decimal(page, out, bit)?;
    put(page, out, b"]")
}

/// Writes the numbers of the bits from `hi` down to `lo` in brackets.
fn put_bits<K: Sink>(page: &mut Page, out: &mut K, hi: u8, lo: u8) -> Result<(), Failed>
    ensures { Flows (K.told out.old) (K.told out.new) (K.faults out.old) (K.faults out.new)
        page.old page.new result
        (codes "[" ++ (decimal hi ++ (codes ":" ++ (decimal lo ++ codes "]")))) }
{
    put(page, out, b"[")?;
    put_decimal(page, out, hi)?;
    put(page, out, b":")?;
    put_decimal(page, out, lo)?;
    put(page, out, b"]")
}

/// Writes a node of one bit, which has no range, and 1, whose and is its only bit.
fn put_only_bit<K: Sink>(page: &mut Page, out: &mut K, net: &Netlist, a: Id) -> Result<(), Failed>
    requires { a.0 < length net.now.nodes }
    ensures { Flows (K.told out.old) (K.told out.new) (K.faults out.old) (K.faults out.new)
        page.old page.new result (node_name net.now.nodes a.0 ++ (codes " & " ++ constant_text 1 1)) }
{
    put_name(page, out, net, a)?;
    put(page, out, b" & ")?;
    put_constant(page, out, 1, 1)
}

/// Writes bits of a node.
fn put_part<K: Sink>(
    page: &mut Page,
    out: &mut K,
    net: &Netlist,
    a: Id,
    hi: u8,
    lo: u8,
) -> Result<(), Failed>
    requires { Has net.now a }
    ensures { Flows (K.told out.old) (K.told out.new) (K.faults out.old) (K.faults out.new)
        page.old page.new result
        (term_text (selected (width_in net.now a) (node_name net.now.nodes a.0) hi lo)) }
{
    if net.width(a) == 1 {
        return put_only_bit(page, out, net, a);
    }
    put_name(page, out, net, a)?;
    if hi == lo {
        put_bit(page, out, hi)
    } else {
        put_bits(page, out, hi, lo)
    }
}

/// Writes a node above another.
fn put_cat<K: Sink>(page: &mut Page, out: &mut K, net: &Netlist, a: Id, b: Id) -> Result<(), Failed>
    requires a_stands { a.0 < length net.now.nodes }
    requires b_stands { b.0 < length net.now.nodes }
    ensures { Flows (K.told out.old) (K.told out.new) (K.faults out.old) (K.faults out.new)
        page.old page.new result
        (codes "{" ++ (node_name net.now.nodes a.0 ++ (codes ", "
        ++ (node_name net.now.nodes b.0 ++ codes "}")))) }
{
    put(page, out, b"{")?;
    put_name(page, out, net, a)?;
    put(page, out, b", ")?;
    put_name(page, out, net, b)?;
    put(page, out, b"}")
}

/// Writes an operator before a node.
fn put_one<K: Sink>(
    page: &mut Page,
    out: &mut K,
    net: &Netlist,
    operator: &[u8],
    a: Id,
) -> Result<(), Failed>
    requires { a.0 < length net.now.nodes }
    ensures { Flows (K.told out.old) (K.told out.new) (K.faults out.old) (K.faults out.new)
        page.old page.new result (operator.now ++ node_name net.now.nodes a.0) }
{
    put(page, out, operator)?;
    put_name(page, out, net, a)
}

/// Writes an operator between two nodes, with its spaces.
fn put_two<K: Sink>(
    page: &mut Page,
    out: &mut K,
    net: &Netlist,
    a: Id,
    operator: &[u8],
    b: Id,
) -> Result<(), Failed>
    requires a_stands { a.0 < length net.now.nodes }
    requires b_stands { b.0 < length net.now.nodes }
    ensures { Flows (K.told out.old) (K.told out.new) (K.faults out.old) (K.faults out.new)
        page.old page.new result
        (node_name net.now.nodes a.0 ++ (operator.now ++ node_name net.now.nodes b.0)) }
{
    put_name(page, out, net, a)?;
    put(page, out, operator)?;
    put_name(page, out, net, b)
}

/// Writes a condition and its branches.
fn put_pick<K: Sink>(
    page: &mut Page,
    out: &mut K,
    net: &Netlist,
    c: Id,
    a: Id,
    b: Id,
) -> Result<(), Failed>
    requires c_stands { c.0 < length net.now.nodes }
    requires a_stands { a.0 < length net.now.nodes }
    requires b_stands { b.0 < length net.now.nodes }
    ensures { Flows (K.told out.old) (K.told out.new) (K.faults out.old) (K.faults out.new)
        page.old page.new result
        (node_name net.now.nodes c.0 ++ (codes " ? " ++ (node_name net.now.nodes a.0
        ++ (codes " : " ++ node_name net.now.nodes b.0)))) }
{
    put_name(page, out, net, c)?;
    put(page, out, b" ? ")?;
    put_name(page, out, net, a)?;
    put(page, out, b" : ")?;
    put_name(page, out, net, b)
}

/// Writes an expression over nodes.
pub(crate) fn put_expr<K: Sink>(
    page: &mut Page,
    out: &mut K,
    net: &Netlist,
    expr: NetExpr,
) -> Result<(), Failed>
    requires { CanWire net.now expr }
    ensures { Flows (K.told out.old) (K.told out.new) (K.faults out.old) (K.faults out.new)
        page.old page.new result (term_text (term_of net.now expr)) }
{
    match expr {
        NetExpr::Const(width, value) => put_constant(page, out, width, value),
        NetExpr::Part(a, hi, lo) => put_part(page, out, net, a, hi, lo),
        NetExpr::Cat(a, b) => put_cat(page, out, net, a, b),
        NetExpr::Not(a) => put_one(page, out, net, b"~", a),
        NetExpr::All(a) => put_one(page, out, net, b"&", a),
        NetExpr::Any(a) => put_one(page, out, net, b"|", a),
        NetExpr::Odd(a) => put_one(page, out, net, b"^", a),
        NetExpr::Add(a, b) => put_two(page, out, net, a, b" + ", b),
        NetExpr::Sub(a, b) => put_two(page, out, net, a, b" - ", b),
        NetExpr::And(a, b) => put_two(page, out, net, a, b" & ", b),
        NetExpr::Or(a, b) => put_two(page, out, net, a, b" | ", b),
        NetExpr::Xor(a, b) => put_two(page, out, net, a, b" ^ ", b),
        NetExpr::Eq(a, b) => put_two(page, out, net, a, b" == ", b),
        NetExpr::Lt(a, b) => put_two(page, out, net, a, b" < ", b),
        NetExpr::Pick(c, a, b) => put_pick(page, out, net, c, a, b),
    }
}
