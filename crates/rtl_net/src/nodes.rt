//! The nodes in order, with their widths, and the wires found by their expressions.

ghost use Rattle.std.specs.Prelude.{◌≡◌, ◌≢◌, ◌<◌, ◌+◌, ◌^◌, ◌++◌, ◌∷◌, [], ℕ, List, Option, false, OnOk, OnErr, IfOk, IfSome, IfNone, slice_get, slice_index, slice_set, Some, None, Ok, IsSome, length};
ghost use Rattle.rtl_net.specs.Value.{node_width, expr_width, widths_after};
ghost use Rattle.rtl_net.specs.Shared.{wire_under, is_wire, LacksWire, SameWires, NotesWire, SharesWire};
ghost use Rattle.rtl_net.specs.declared.node.Id.{Id as IdOf};
ghost use Rattle.rtl_net.specs.declared.node.NetNode.{NetNode as NodeOf};
ghost use Rattle.rtl_net.specs.declared.node.NetReset.{NetReset as ResetOf};

use crate::node::{Id, NetExpr, NetNode};
use crate::wires::Wires;
use rb_base::NoMemory;
use std::alloc::Global;
use std::marker::Model;

/// The nodes in order.
#[derive(Drop)]
pub(crate) struct Nodes {
    nodes: Vec<NetNode>,
    widths: Vec<u8>,
    wires: Wires,
}

impl Model for Nodes {
    ghost use Rattle.std.specs.Prelude.{List, [], ◌≡◌};
    ghost use Rattle.rtl_net.specs.declared.node.NetNode.{NetNode as NodeOf};
    ghost use Rattle.rtl_net.specs.Value.{widths_after};
    ghost use Rattle.rtl_net.specs.Shared.{AreWires};

    ghost Value = { List NodeOf };

    ghost view = { λ n. n.nodes.items };

    ghost invariant = { λ n. (n.widths.items ≡ widths_after [] n.nodes.items) × AreWires n.wires n.nodes.items };
}

/// Puts a node and its width at the end, or changes nothing.
fn push(
    nodes: &mut Vec<NetNode>,
    widths: &mut Vec<u8>,
    node: NetNode,
    width: u8,
) -> Result<Id, NoMemory>
    ensures id { IfOk result (λ id. id.0 ≡ length nodes.old.items) }
    ensures nodes { OnOk result (nodes.new.items ≡ nodes.old.items ++ node ∷ []) }
    ensures widths { OnOk result (widths.new.items ≡ widths.old.items ++ width ∷ []) }
    ensures same_nodes { OnErr result (nodes.new.items ≡ nodes.old.items) }
    ensures same_widths { OnErr result (widths.new.items ≡ widths.old.items) }
{
    let id = Id(nodes.len());
    widths.push(width)?;
    if nodes.push(node).is_err() {
        let _ = widths.pop();
        return Err(NoMemory);
    }
    Ok(id)
}

/// Takes the last node and its width away.
fn pop(nodes: &mut Vec<NetNode>, widths: &mut Vec<u8>)
    ensures nodes { (front : List NodeOf) (last : NodeOf) → nodes.old.items ≡ front ++ last ∷ [] → nodes.new.items ≡ front }
    ensures widths { (front : List ℕ) (last : ℕ) → widths.old.items ≡ front ++ last ∷ [] → widths.new.items ≡ front }
{
    let _ = nodes.pop();
    let _ = widths.pop();
}

/// The wire of an expression: the one that stands, or a new one at the end, or changes nothing.
fn wire(
    nodes: &mut Vec<NetNode>,
    widths: &mut Vec<u8>,
    wires: &mut Wires,
    expr: NetExpr,
    width: u8,
) -> Result<Id, NoMemory>
    ensures known { (id : IdOf) → wire_under wires.old expr ≡ Some id → result ≡ Ok id }
    ensures known_nodes { IsSome (wire_under wires.old expr) → nodes.new.items ≡ nodes.old.items }
    ensures known_widths { IsSome (wire_under wires.old expr) → widths.new.items ≡ widths.old.items }
    ensures known_wires { IsSome (wire_under wires.old expr) → SameWires wires.old wires.new }
    ensures id { wire_under wires.old expr ≡ None → IfOk result (λ id. id.0 ≡ length nodes.old.items) }
    ensures nodes { wire_under wires.old expr ≡ None → OnOk result (nodes.new.items ≡ nodes.old.items ++ NetNode.Wire expr ∷ []) }
    ensures widths { wire_under wires.old expr ≡ None → OnOk result (widths.new.items ≡ widths.old.items ++ width ∷ []) }
    ensures wires { wire_under wires.old expr ≡ None → IfOk result (λ id. NotesWire wires.old wires.new expr (Some id)) }
    ensures same_nodes { OnErr result (nodes.new.items ≡ nodes.old.items) }
    ensures same_widths { OnErr result (widths.new.items ≡ widths.old.items) }
    ensures same_wires { OnErr result (SameWires wires.old wires.new) }
{
    if let Some(id) = wires.note(expr, Id(nodes.len()))? {
        return Ok(id);
    }
    let pushed = push(nodes, widths, NetNode::Wire(expr), width);
    if pushed.is_err() {
        wires.forget(expr);
    }
    pushed
}

/// Ties a register to the node that it takes.
fn tie(node: &mut NetNode, next: Id)
    requires { (name : List ℕ) × (w : ℕ) × (reset : ResetOf) × (node.old ≡ NetNode.Register name w reset None) }
    ensures { (name : List ℕ) (w : ℕ) (reset : ResetOf) → node.old ≡ NetNode.Register name w reset None → node.new ≡ NetNode.Register name w reset (Some next) }
{
    match node {
        NetNode::Register { next: place, .. } => *place = Some(next),
        _ => unreachable!(),
    }
}

/// Ties the register of this number.
fn tie_at(nodes: &mut Vec<NetNode>, reg: Id, next: Id)
    requires { (name : List ℕ) × (w : ℕ) × (reset : ResetOf) × (slice_get nodes.old.items reg.0 ≡ Some (NetNode.Register name w reset None)) }
    ensures { (name : List ℕ) (w : ℕ) (reset : ResetOf) → slice_get nodes.old.items reg.0 ≡ Some (NetNode.Register name w reset None)
        → nodes.new.items ≡ slice_set nodes.old.items reg.0 (NetNode.Register name w reset (Some next)) }
{
    tie(&mut nodes[reg.0], next);
}

impl Nodes {
    pub(crate) fn new(alloc: Global) -> Self
        ensures { result ≡ [] }
    {
        Nodes {
            nodes: Vec::new(alloc),
            widths: Vec::new(alloc),
            wires: Wires::new(alloc),
        }
    }

    pub(crate) fn as_slice(&self) -> &[NetNode]
        ensures { result.now ≡ self.now }
    {
        &self.nodes
    }

    /// The widths of the nodes as operands: 0 for the clock.
    pub(crate) fn widths(&self) -> &[u8]
        ensures { result.now ≡ widths_after [] self.now }
    {
        &self.widths
    }

    /// Puts an input or a register at the end, or changes nothing.
    pub(crate) fn push(&mut self, node: NetNode, width: u8) -> Result<Id, NoMemory>
        requires leaf { is_wire node ≡ false }
        requires width { width ≡ node_width (widths_after [] self.old) node }
        ensures id { IfOk result (λ id. id.0 ≡ length self.old) }
        ensures ok { OnOk result (self.new ≡ self.old ++ node ∷ []) }
        ensures err { OnErr result (self.new ≡ self.old) }
    {
        let id = push(&mut self.nodes, &mut self.widths, node, width)?;
        Ok(id)
    }

    /// Takes the last node away, which is no wire.
    pub(crate) fn pop(&mut self)
        requires { (front : List NodeOf) × (last : NodeOf) × (is_wire last ≡ false) × (self.old ≡ front ++ last ∷ []) }
        ensures { (front : List NodeOf) (last : NodeOf) → self.old ≡ front ++ last ∷ [] → self.new ≡ front }
    {
        pop(&mut self.nodes, &mut self.widths);
    }

    /// The wire of an expression: the one that stands, or a new one at the end, or changes nothing.
    pub(crate) fn wire(&mut self, expr: NetExpr, width: u8) -> Result<Id, NoMemory>
        requires { width ≡ expr_width (widths_after [] self.old) expr }
        ensures ok { IfOk result (SharesWire self.old self.new expr) }
        ensures absent { OnErr result (LacksWire self.old expr) }
        ensures err { OnErr result (self.new ≡ self.old) }
    {
        let id = wire(
            &mut self.nodes,
            &mut self.widths,
            &mut self.wires,
            expr,
            width,
        )?;
        Ok(id)
    }

    /// Ties a register that is still to be driven to the node that it takes.
    pub(crate) fn tie(&mut self, reg: Id, next: Id)
        requires { (name : List ℕ) × (w : ℕ) × (reset : ResetOf) × (slice_get self.old reg.0 ≡ Some (NetNode.Register name w reset None)) }
        ensures { (name : List ℕ) (w : ℕ) (reset : ResetOf) → slice_get self.old reg.0 ≡ Some (NetNode.Register name w reset None)
            → self.new ≡ slice_set self.old reg.0 (NetNode.Register name w reset (Some next)) }
    {
        tie_at(&mut self.nodes, reg, next);
    }
}
