//! For each node the body next round its definition's text.

ghost use Rattle.std.specs.Prelude.{◌≡◌, ◌+◌, ◌^◌, ◌<◌, ◌≤◌, ◌⊎◌, drop, IfNone, IfOk, IfSome, List, Option, Some, slice_get, ℕ};
ghost use Rattle.rdl_tree.specs.declared.node.Elab.{Elab as AnyElab};
ghost use Rattle.rdl_tree.specs.declared.node.Node.{out-Node};
ghost use Rattle.rdl_values.specs.Bodies.{Path};
ghost use Rattle.rdl_values.specs.Elaboration.{IsClean};
ghost use Rattle.rdl_values.specs.Lineages.{Lineage, lineages_of};
ghost use Rattle.rdl_nodes.specs.Rows.{AreRows};
ghost use Rattle.rdl_layers.specs.Scoped.{bodies_of};
ghost use Rattle.rdl_resolve.specs.Outers.{AreOuters, AreOutersTo, IsChainBelow, IsTooDeep};

use crate::depth::depth_of;
use crate::search::outer_of;
use rb_base::NoMemory;
use rdl_layers::texts_in_bodies;
use rdl_nodes::Row;
use rdl_tree::Elab;
use std::alloc::Global;

/// The body that so many are nearer than, from one outwards.
fn outward(outers: &[u32], from: u32, bodies: usize, root: u32) -> u32
    ensures { (e : AnyElab) (n : ℕ) (ps : List (Option Path)) → root ≡ e.count → IsChainBelow e outers.now n ps from → IsChainBelow e outers.now n (drop bodies ps) result }
{
    let mut body = from;
    for _ in 0..bodies {
        body = outer_of(outers, body, root);
    }
    body
}

/// The row of a number, if there is one.
pub(crate) fn row_of<'a>(rows: &[Row<'a>], node: u32) -> Option<Row<'a>>
    ensures { result ≡ slice_get rows.now node }
{
    rows.get(node as usize).copied()
}

/// How many of the bodies round an inner one, and itself, are nearer than those round a text that is seen from one more. None where
/// no number counts them all, or where the text's are more.
fn nearer(round: usize, own: usize) -> Option<usize>
    ensures some { IfSome result (λ b. b + own ≡ round + 1) }
    ensures none { IfNone result ((2 ^ 64 ≤ round + 1) ⊎ (round + 1 < own)) }
{
    round.checked_add(1)?.checked_sub(own)
}

/// The body next round the text of a node's definition: the text stands in a body round its parent's body, or in that. None where no
/// number counts the bodies.
fn body_round(rows: &[Row<'_>], outers: &[u32], row: &Row<'_>, root: u32) -> Option<u32>
    ensures body { IfSome result (λ o. (e : AnyElab) (l : Lineage) → IsClean e → AreRows e rows.now → root ≡ e.count → slice_get rows.now (out-Node row.now.node.now).id ≡ Some row.now → slice_get (lineages_of e) (out-Node row.now.node.now).id ≡ Some l
        → AreOutersTo e (out-Node row.now.node.now).id outers.now → IsChainBelow e outers.now (out-Node row.now.node.now).id (bodies_of l.node.closure.scope) o) }
    ensures none { IfNone result ((e : AnyElab) (l : Lineage) → IsClean e → AreRows e rows.now → slice_get rows.now (out-Node row.now.node.now).id ≡ Some row.now → slice_get (lineages_of e) (out-Node row.now.node.now).id ≡ Some l → IsTooDeep rows.now row.now) }
{
    texts_in_bodies();
    let Some(parent) = row.parent else {
        return Some(root);
    };
    let above = row_of(rows, parent)?;
    let own = depth_of(row.node.env)?;
    let round = depth_of(above.node.env)?;
    let bodies = nearer(round, own)?;
    Some(outward(outers, parent, bodies, root))
}

/// For each node of a tree, of which these are the rows, the number of the body next round its definition's text: of the node whose body
/// it is, or the count of nodes, where it is the root's. The only error is want of memory.
pub fn outers_of(alloc: Global, elab: &Elab<'_>, rows: &[Row<'_>]) -> Result<Vec<u32>, NoMemory>
    requires clean { IsClean elab.now }
    requires rows { AreRows elab.now rows.now }
    ensures { IfOk result (λ o. AreOuters elab.now o.items) }
{
    let mut outers = Vec::new(alloc);
    for at in 0..rows.len() {
        let row = &rows[at];
        let Some(outer) = body_round(rows, &outers, row, elab.count) else {
            return Err(NoMemory);
        };
        outers.push(outer)?;
    }
    Ok(outers)
}
