//! The nodes of a tree in a list.

ghost use Rattle.std.specs.Prelude.{◌≡◌, ◌++◌, List, IfOk, None, OnOk, Some};
ghost use Rattle.rdl_values.specs.Elaboration.{IsClean};
ghost use Rattle.rdl_nodes.specs.declared.table.Row.{Row as AnyRow};
ghost use Rattle.rdl_nodes.specs.Below.{AreBelow, IsBelow};
ghost use Rattle.rdl_nodes.specs.Rows.{AreRows};

use rb_base::NoMemory;
use rdl_tree::{Elab, Node};
use std::alloc::Global;

/// A node, and the number of the node that it stands in, if it stands in one.
#[derive(Clone, Copy)]
pub struct Row<'a> {
    pub node: &'a Node<'a>,
    pub parent: Option<u32>,
}

/// Adds a node and those below it, each before those in it. It recurses as deep as the tree goes, which has at most 32 levels.
fn add_node<'a>(
    node: &'a Node<'a>,
    parent: Option<u32>,
    rows: &mut Vec<Row<'a>>,
) -> Result<(), NoMemory>
    ensures { OnOk result ((added : List AnyRow) × IsBelow parent node.now added × (rows.new.items ≡ rows.old.items ++ added)) }
{
    rows.push(Row { node, parent })?;
    for child in node.children {
        add_node(child, Some(node.id), rows)?;
    }
    Ok(())
}

/// Adds nodes that stand in no other, and those below them.
fn add_roots<'a>(nodes: &'a [Node<'a>], rows: &mut Vec<Row<'a>>) -> Result<(), NoMemory>
    ensures { OnOk result ((added : List AnyRow) × AreBelow None nodes.now added × (rows.new.items ≡ rows.old.items ++ added)) }
{
    for node in nodes {
        add_node(node, None, rows)?;
    }
    Ok(())
}

/// All nodes of a tree, each at its number, with the number of the node that it stands in. The only error is want of memory.
pub fn rows<'a>(alloc: Global, elab: &Elab<'a>) -> Result<Vec<Row<'a>>, NoMemory>
    requires { IsClean elab.now }
    ensures { IfOk result (λ rows. AreRows elab.now rows.items) }
{
    let mut rows = Vec::new(alloc);
    add_roots(elab.signals, &mut rows)?;
    add_node(elab.top, None, &mut rows)?;
    Ok(rows)
}
