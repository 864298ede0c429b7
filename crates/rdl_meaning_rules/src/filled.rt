//! Which nodes hold a register.

ghost use Rattle.std.specs.Prelude.{◌≡◌, ◌<◌, ◌+◌, ◌∷◌, ℕ, Bool, List, IfOk, Some, length, slice_get};
ghost use Rattle.std.specs.List.{All, list_any};
ghost use Rattle.rdl_tree.specs.declared.node.Elab.{Elab};
ghost use Rattle.rdl_tree.specs.declared.node.Node.{out-Node};
ghost use Rattle.rdl_values.specs.Instances.{Instance, children, kind_of};
ghost use Rattle.rdl_values.specs.Lineages.{Lineage, lineages_of};
ghost use Rattle.rdl_nodes.specs.Rows.{AreInside, AreRows};
ghost use Rattle.rdl_meaning_rules.specs.Filled.{AreFilled, AreFilledFrom, filled_at, holds_register};

use rb_base::NoMemory;
use rdl_nodes::Row;
use rdl_tree::Node;
use std::alloc::Global;

/// Whether one of the nodes in a body is known to be so.
fn is_one_filled(filled: &[bool], nodes: &[Node<'_>]) -> bool
    requires { All (λ r. (out-Node r).id < length filled.now) nodes.now }
    ensures { (all : List Lineage) (up : List Instance) (ns : List Instance) (p : Instance → Bool) → AreInside all up nodes.now nodes.now ns
        → ((k : ℕ) (c : Instance) → slice_get all k ≡ Some (record { node = c; ancestors = up }) → filled_at filled.now k ≡ p c) → result ≡ list_any p ns }
{
    for node in nodes {
        if filled[node.id as usize] {
            return true;
        }
    }
    false
}

/// Whether a node is a register, or one of those in it is known to be or to hold one.
fn is_filled(filled: &[bool], node: &Node<'_>) -> bool
    requires { All (λ r. (out-Node r).id < length filled.now) (out-Node node.now).children.now }
    ensures { (e : Elab) (k : ℕ) (l : Lineage) → slice_get (lineages_of e) k ≡ Some l → (out-Node node.now).kind ≡ kind_of l.node → AreInside (lineages_of e) (l.node ∷ l.ancestors) (out-Node node.now).children.now (out-Node node.now).children.now (children l.node)
        → AreFilledFrom e (k + 1) filled.now → result ≡ holds_register l.node }
{
    node.kind.is_register() || is_one_filled(filled, node.children)
}

/// For each node of a tree, of which these are the rows, whether it is a register or holds one. The only error is want of memory.
pub(crate) fn filled_nodes(alloc: Global, rows: &[Row<'_>]) -> Result<Vec<bool>, NoMemory>
    requires { (e : Elab) × AreRows e rows.now }
    ensures { IfOk result (λ t. (e : Elab) → AreRows e rows.now → AreFilled e t.items) }
{
    let mut filled = vec![in alloc; false; rows.len()]?;
    for at in (0..rows.len()).rev() {
        let row = &rows[at];
        let value = is_filled(&filled, row.node);
        filled[at] = value;
    }
    Ok(filled)
}
