//! The nodes in the bodies of nodes, by their names and indices.

ghost use Rattle.std.specs.Prelude.{◌≡◌, ◌∷◌, [], IfOk, OnOk, slice_get};
ghost use Rattle.rdl_tree.specs.declared.node.Elab.{Elab};
ghost use Rattle.rdl_tree.specs.declared.node.Node.{out-Node};
ghost use Rattle.rdl_nodes.specs.Rows.{AreRows};
ghost use Rattle.rdl_targets.specs.Contents.{AddsNodes, AreContents};

use crate::matching::Wanted;
use rb_base::NoMemory;
use rdl_node_lists::{By, Held, NodeList};
use rdl_nodes::Row;
use rdl_tree::Node;
use std::alloc::Global;

/// The nodes in the bodies of the nodes of a tree, by their names, and by their names and indices.
#[derive(Drop)]
pub struct Contents<'a> {
    pub(crate) names: NodeList<'a>,
    pub(crate) elements: NodeList<'a>,
}

impl<'a> Contents<'a> {
    ghost use Rattle.std.specs.Prelude.{◌≡◌};
    ghost use Rattle.rdl_node_lists.specs.Keys.{numbers};
    ghost use Rattle.rdl_targets.specs.Contents.{found_wanted};

    /// The nodes in a body that have a name and the indices that are wanted.
    pub(crate) fn all<'s>(&'s self, body: u32, name: &[u8], wanted: &Wanted) -> &'s [Held<'a>]
        ensures { numbers result.now ≡ found_wanted self.now body name.now wanted.now }
    {
        match wanted {
            Wanted::Any => self.names.all(body, name, &[]),
            Wanted::None => &[],
            Wanted::These(indices) => self.elements.all(body, name, indices),
        }
    }
}

// Puts a node into a body.
fn add<'a>(nodes: &mut Vec<Held<'a>>, body: u32, node: &'a Node<'a>) -> Result<(), NoMemory>
    ensures { OnOk result (AddsNodes body (node.now ∷ []) nodes.old.items nodes.new.items) }
{
    nodes.push(Held { body, node })?;
    Ok(())
}

// Puts the nodes in the body of one into that.
fn add_body<'a>(nodes: &mut Vec<Held<'a>>, node: &Node<'a>) -> Result<(), NoMemory>
    ensures { OnOk result (AddsNodes (out-Node node.now).id (out-Node node.now).children.now nodes.old.items nodes.new.items) }
{
    for child in node.children {
        add(nodes, node.id, child)?;
    }
    Ok(())
}

/// The nodes in the bodies of the nodes that these rows say. The only error is want of memory.
pub fn contents_of<'a>(alloc: Global, rows: &[Row<'a>]) -> Result<Contents<'a>, NoMemory>
    ensures { IfOk result (λ r. (e : Elab) → AreRows e rows.now → AreContents e r) }
{
    let mut nodes = Vec::with_capacity(alloc, rows.len())?;
    for row in rows {
        add_body(&mut nodes, row.node)?;
    }
    let names = NodeList::of(By::Name, nodes.clone()?)?;
    let elements = NodeList::of(By::Element, nodes)?;
    Ok(Contents { names, elements })
}

/// The row of a number, if there is one.
pub fn row_at<'a>(rows: &[Row<'a>], node: u32) -> Option<Row<'a>>
    ensures { result ≡ slice_get rows.now node }
{
    rows.get(node as usize).copied()
}
