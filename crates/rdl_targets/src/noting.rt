//! Which names and indices the nodes in some bodies have.

ghost use Rattle.std.specs.Prelude.{◌≡◌, ◌&&◌, not, OnOk};
ghost use Rattle.rdl_values.specs.Parts as parts;
ghost use Rattle.rdl_nodes.specs.Keyed.{Key, nodes_under, same_key};

use crate::contents::row_at;
use crate::notes::Notes;
use rb_base::NoMemory;
use rdl_nodes::{NodeIndex, Row};
use rdl_tree::Node;
use std::alloc::Global;

// Puts a node under a key, where none is there.
fn note_in<'a>(
    nodes: &mut NodeIndex<'a>,
    alloc: Global,
    number: u32,
    name: &'a [u8],
    index: &'a [u64],
    node: u32,
) -> Result<(), NoMemory>
    ensures { OnOk result ((k : Key) → parts.is_empty (nodes_under nodes.new k) ≡ (parts.is_empty (nodes_under nodes.old k) && not (same_key (record { body = number; name = name.now; index = index.now }) k))) }
{
    if nodes.first(number, name, index).is_some() {
        return Ok(());
    }
    nodes.put(alloc, number, name, index, node)
}

impl<'a> Notes<'a> {
    ghost use Rattle.std.specs.Prelude.{◌≡◌, ◌∷◌, [], ℕ, List, OnOk};
    ghost use Rattle.rdl_tree.specs.declared.node.Elab.{Elab};
    ghost use Rattle.rdl_tree.specs.declared.node.Node.{out-Node};
    ghost use Rattle.rdl_values.specs.Instances.{Instance, children};
    ghost use Rattle.rdl_values.specs.Lineages.{lineages_of};
    ghost use Rattle.rdl_nodes.specs.Rows.{AreRows};
    ghost use Rattle.rdl_targets.specs.At.{AreAt};
    ghost use Rattle.rdl_targets.specs.Noted.{NotesAll, NotesNodes};

    // Puts a node under a number, where none of its name, or none of its name and indices, is there.
    fn note(&mut self, alloc: Global, number: u32, node: &Node<'a>) -> Result<(), NoMemory>
        ensures { OnOk result (NotesNodes number (node.now ∷ []) self.old self.new) }
    {
        let none: &'a [u64] = &[];
        note_in(&mut self.names, alloc, number, node.name, none, node.id)?;
        note_in(
            &mut self.elements,
            alloc,
            number,
            node.name,
            node.index,
            node.id,
        )
    }

    // The same of the nodes in the body of one.
    fn note_body(&mut self, alloc: Global, number: u32, node: &Node<'a>) -> Result<(), NoMemory>
        ensures { OnOk result (NotesNodes number (out-Node node.now).children.now self.old self.new) }
    {
        for child in node.children {
            self.note(alloc, number, child)?;
        }
        Ok(())
    }

    // The same of the nodes in the body of the one of a number.
    fn note_at(
        &mut self,
        alloc: Global,
        rows: &[Row<'a>],
        number: u32,
        node: u32,
    ) -> Result<(), NoMemory>
        ensures { OnOk result (NotesAll number rows.now (node ∷ []) self.old self.new) }
    {
        match row_at(rows, node) {
            Some(row) => self.note_body(alloc, number, row.node),
            None => Ok(()),
        }
    }

    /// The same of the nodes in the bodies of some.
    pub(crate) fn note_all(
        &mut self,
        alloc: Global,
        rows: &[Row<'a>],
        number: u32,
        nodes: &[u32],
    ) -> Result<(), NoMemory>
        ensures { OnOk result (NotesAll number rows.now nodes.now self.old self.new) }
    {
        for node in nodes {
            self.note_at(alloc, rows, number, *node)?;
        }
        Ok(())
    }
}
