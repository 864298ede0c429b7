//! The reset signals in the bodies round what stands in a node (SystemRDL 2.0, 8.2.1).

ghost use Rattle.std.specs.Prelude.{◌≡◌, ◌<◌, ◌++◌, List, IfOk, Option, filter};
ghost use Rattle.std.specs.List.{All};
ghost use Rattle.rdl_tree.specs.declared.node.Node.{out-Node};
ghost use Rattle.rdl_values.specs.Elaboration.{IsClean};
ghost use Rattle.rdl_values.specs.Instances.{Instance};
ghost use Rattle.rdl_nodes.specs.Rows.{AreRows};
ghost use Rattle.rdl_rules.specs.Fields.{is_field_reset};
ghost use Rattle.rdl_reset_rules.specs.Said.{AreSaid};
ghost use Rattle.rdl_reset_rules.specs.Nearest.{AreNearest, IsFirst, outer_in};

use crate::signal::is_field_reset;
use rb_base::NoMemory;
use rdl_layers::Props;
use rdl_nodes::Row;
use rdl_tree::{Elab, Node};
use std::alloc::Global;

/// The number of the first reset signal among the nodes in a body.
fn first_in(props: &Props<'_>, nodes: &[Node<'_>]) -> Option<u32>
    requires { All (λ r. (out-Node r).id < props.now.count) nodes.now }
    ensures { (ns : List Instance) → AreSaid props.now nodes.now ns → IsFirst props.now (filter is_field_reset ns) result }
{
    for node in nodes {
        if is_field_reset(props, node) {
            return Some(node.id);
        }
    }
    None
}

/// The first reset signal in a body, or else that of the bodies round it.
fn nearest_in(props: &Props<'_>, nodes: &[Node<'_>], outer: Option<u32>) -> Option<u32>
    requires { All (λ r. (out-Node r).id < props.now.count) nodes.now }
    ensures { (ns ms : List Instance) → AreSaid props.now nodes.now ns → IsFirst props.now (filter is_field_reset ms) outer → IsFirst props.now (filter is_field_reset (ns ++ ms)) result }
{
    match first_in(props, nodes) {
        Some(node) => Some(node),
        None => outer,
    }
}

/// What is listed for a parent, or this where there is none.
pub(crate) fn outer_of(
    nearest: &[Option<u32>],
    parent: Option<u32>,
    root: Option<u32>,
) -> Option<u32>
    ensures { result ≡ outer_in nearest.now root parent }
{
    let Some(parent) = parent else {
        return root;
    };
    match nearest.get(parent as usize) {
        Some(outer) => *outer,
        None => root,
    }
}

/// For each node of a tree, of which these are the rows, the number of the nearest reset signal round what stands in it: the first in its
/// own body, or else in those round that, the root's last. The only error is want of memory.
pub fn nearest_resets(
    alloc: Global,
    elab: &Elab<'_>,
    props: &Props<'_>,
    rows: &[Row<'_>],
) -> Result<Vec<Option<u32>>, NoMemory>
    requires clean { IsClean elab.now }
    requires props { props.now ≡ elab.now }
    requires rows { AreRows elab.now rows.now }
    ensures { IfOk result (λ ns. AreNearest elab.now ns.items) }
{
    let root = first_in(props, elab.signals);
    let mut nearest = Vec::new(alloc);
    for at in 0..rows.len() {
        let row = &rows[at];
        let outer = outer_of(&nearest, row.parent, root);
        nearest.push(nearest_in(props, row.node.children, outer))?;
    }
    Ok(nearest)
}
