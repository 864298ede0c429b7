//! The nodes of a tree under the bodies that they are in.

ghost use Rattle.std.specs.Prelude.{◌≡◌, ◌≤◌, IfOk, OnOk, length};
ghost use Rattle.rdl_values.specs.Elaboration.{IsClean};
ghost use Rattle.rdl_nodes.specs.Rows.{AreRows};
ghost use Rattle.rdl_members.specs.Found.{AreMembersOf};
ghost use Rattle.rdl_members.specs.Listed.{AddsRow, body_by};

use rb_base::NoMemory;
use rdl_node_lists::{By, Held, NodeList};
use rdl_nodes::Row;
use rdl_tree::{Elab, Kind};
use std::alloc::Global;

/// The nodes of a tree under the number of the body that they are in, their names and their indices. The number of a node's body is
/// the node's, and that of the root's the count of nodes.
#[derive(Drop)]
pub struct Members<'a> {
    pub(crate) elements: NodeList<'a>,
    pub(crate) names: NodeList<'a>,
    /// No node has more indices.
    pub(crate) most: usize,
}

/// The number of the body that a node is in: of the node that it stands in, or the root's, where it is a signal. The top is in none.
fn body_of(parent: Option<u32>, kind: Kind, root: u32) -> Option<u32>
    ensures { result ≡ body_by root parent kind }
{
    match (parent, kind) {
        (Some(parent), _) => Some(parent),
        (None, Kind::Signal) => Some(root),
        _ => None,
    }
}

/// A number that is neither less than this one nor than the count of some indices.
fn at_least(most: usize, index: &[u64]) -> usize
    ensures more { most ≤ result }
    ensures few { length index.now ≤ result }
{
    most.max(index.len())
}

impl<'a> Members<'a> {
    ghost use Rattle.std.specs.Prelude.{◌≡◌, ◌≤◌, ◌<◌, IfSome, is_some, option_to_list, option_and_then, filter, slice_get};
    ghost use Rattle.std.specs.List.{list_any};
    ghost use Rattle.rdl_tree.specs.declared.node.Elab.{Elab as AnyElab};
    ghost use Rattle.rdl_values.specs.Lineages.{lineages_of};
    ghost use Rattle.rdl_members.specs.Found.{AreMembersOf, is_element, is_named, members_at};

    /// The node in a body that has this name and these indices.
    pub fn find(&self, body: u32, name: &[u8], index: &[u64]) -> Option<u32>
        ensures stands { IfSome result (λ k. (e : AnyElab) → AreMembersOf e self.now → k < e.count) }
        ensures found { (e : AnyElab) → AreMembersOf e self.now → body ≤ e.count
            → option_to_list (option_and_then (slice_get (lineages_of e)) result) ≡ filter (λ l. is_element name.now index.now l.node) (members_at (lineages_of e) body) }
    {
        self.elements.first(body, name, index)
    }

    /// Whether a node in a body has this name.
    pub fn has(&self, body: u32, name: &[u8]) -> bool
        ensures { (e : AnyElab) → AreMembersOf e self.now → body ≤ e.count → result ≡ list_any (λ l. is_named name.now l.node) (members_at (lineages_of e) body) }
    {
        let none: &[u64] = &[];
        self.names.first(body, name, none).is_some()
    }

    /// A count of indices above which no node has any.
    pub fn most_indices(&self) -> usize
        ensures { result ≡ self.now.most }
    {
        self.most
    }
}

/// Adds the node of a row, where the root's body has this number.
fn add<'a>(nodes: &mut Vec<Held<'a>>, row: &Row<'a>, root: u32) -> Result<(), NoMemory>
    ensures { OnOk result (AddsRow root row.now nodes.old.items nodes.new.items) }
{
    let Some(body) = body_of(row.parent, row.node.kind, root) else {
        return Ok(());
    };
    let node = row.node;
    nodes.push(Held { body, node })?;
    Ok(())
}

/// The nodes of a tree, of which these are the rows. The only error is want of memory.
pub fn members_of<'a>(
    alloc: Global,
    elab: &Elab<'a>,
    rows: &[Row<'a>],
) -> Result<Members<'a>, NoMemory>
    requires clean { IsClean elab.now }
    requires rows { AreRows elab.now rows.now }
    ensures { IfOk result (AreMembersOf elab.now) }
{
    let mut nodes = Vec::with_capacity(alloc, rows.len())?;
    let mut most = 0;
    for row in rows {
        most = at_least(most, row.node.index);
        add(&mut nodes, row, elab.count)?;
    }
    let names = NodeList::of(By::Name, nodes.clone()?)?;
    let elements = NodeList::of(By::Element, nodes)?;
    Ok(Members {
        elements,
        names,
        most,
    })
}
