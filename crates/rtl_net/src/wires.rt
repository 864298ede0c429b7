//! The numbers of wires by their expressions.

ghost use Rattle.std.specs.Prelude.{◌≡◌, ◌≢◌, None, Some, IfOk, OnErr, IsSome, is_some};
ghost use Rattle.std.specs.BTreeMap as tree;
ghost use Rattle.std.specs.HashMap as hash;
ghost use Rattle.rtl_net.specs.Fold.{constant_of};
ghost use Rattle.rtl_net.specs.Shared.{wire_under, SameWires, NotesWire};
ghost use Rattle.rtl_net.specs.contracts.node.NetExprOrd.TheImpl.{cmp-value};
ghost use Rattle.rtl_net.specs.contracts.node.NetExprPartialEq.TheImpl.{eq-value};
ghost use Rattle.rtl_net.specs.declared.node.NetExpr.{NetExpr as ExprOf};

use crate::node::{Id, NetExpr};
use rb_base::NoMemory;
use std::alloc::Global;
use std::collections::{BTreeMap, HashMap, btree_map, hash_map};

/// The numbers of wires by their expressions.
///
/// A source chooses its constants freely, so they are found in order. Any other expression is of numbers that the
/// netlist gave out, and is found by a hash.
#[derive(Drop)]
pub(crate) struct Wires {
    constants: BTreeMap<NetExpr, Id>,
    operations: HashMap<NetExpr, Id>,
}

fn is_constant(expr: &NetExpr) -> bool
    ensures { result ≡ is_some (constant_of expr.now) }
{
    matches!(expr, NetExpr::Const(_, _))
}

/// The number of an expression. One that has none has this number from then on.
fn note_constant(
    wires: &mut BTreeMap<NetExpr, Id>,
    expr: NetExpr,
    id: Id,
) -> Result<Option<Id>, NoMemory>
    ensures old { IfOk result (λ old. old ≡ tree.get cmp-value.it wires.old expr) }
    ensures known { IfOk result (λ old. IsSome old → wires.new.entries ≡ wires.old.entries) }
    ensures put { IfOk result (λ old. old ≡ None → tree.get cmp-value.it wires.new expr ≡ Some id) }
    ensures elsewhere { IfOk result (λ old. old ≡ None → (e : ExprOf) → e ≢ expr → tree.get cmp-value.it wires.new e ≡ tree.get cmp-value.it wires.old e) }
    ensures absent { OnErr result (tree.get cmp-value.it wires.old expr ≡ None) }
    ensures err { OnErr result (wires.new.entries ≡ wires.old.entries) }
{
    match wires.entry(expr)? {
        btree_map::Entry::Occupied(entry) => Ok(Some(*entry.get())),
        btree_map::Entry::Vacant(entry) => {
            entry.insert(id);
            Ok(None)
        }
    }
}

/// The number of an expression. One that has none has this number from then on.
fn note_operation(
    wires: &mut HashMap<NetExpr, Id>,
    expr: NetExpr,
    id: Id,
) -> Result<Option<Id>, NoMemory>
    ensures old { IfOk result (λ old. old ≡ hash.get eq-value.it wires.old expr) }
    ensures known { IfOk result (λ old. IsSome old → wires.new.entries ≡ wires.old.entries) }
    ensures put { IfOk result (λ old. old ≡ None → hash.get eq-value.it wires.new expr ≡ Some id) }
    ensures elsewhere { IfOk result (λ old. old ≡ None → (e : ExprOf) → e ≢ expr → hash.get eq-value.it wires.new e ≡ hash.get eq-value.it wires.old e) }
    ensures absent { OnErr result (hash.get eq-value.it wires.old expr ≡ None) }
    ensures err { OnErr result (wires.new.entries ≡ wires.old.entries) }
{
    match wires.entry(expr)? {
        hash_map::Entry::Occupied(entry) => Ok(Some(*entry.get())),
        hash_map::Entry::Vacant(entry) => {
            entry.insert(id);
            Ok(None)
        }
    }
}

impl Wires {
    pub(crate) fn new(alloc: Global) -> Self
        ensures { (e : ExprOf) → wire_under result e ≡ None }
    {
        Wires {
            constants: BTreeMap::new(alloc),
            operations: HashMap::new(alloc),
        }
    }

    /// The number of an expression. One that has none has this number from then on.
    pub(crate) fn note(&mut self, expr: NetExpr, id: Id) -> Result<Option<Id>, NoMemory>
        ensures old { IfOk result (λ old. old ≡ wire_under self.old expr) }
        ensures known { IfOk result (λ old. IsSome old → SameWires self.old self.new) }
        ensures put { IfOk result (λ old. old ≡ None → NotesWire self.old self.new expr (Some id)) }
        ensures absent { OnErr result (wire_under self.old expr ≡ None) }
        ensures err { OnErr result (SameWires self.old self.new) }
    {
        if is_constant(&expr) {
            note_constant(&mut self.constants, expr, id)
        } else {
            note_operation(&mut self.operations, expr, id)
        }
    }

    /// Forgets an expression.
    pub(crate) fn forget(&mut self, expr: NetExpr)
        ensures { NotesWire self.old self.new expr None }
    {
        if is_constant(&expr) {
            self.constants.remove(&expr);
        } else {
            self.operations.remove(&expr);
        }
    }
}
