//! The numbers of fields under their registers and names.

ghost use Rattle.std.specs.Prelude.{◌≡◌, IfOk, slice_index};
ghost use Rattle.rdl_values.specs.Elaboration.{IsClean};
ghost use Rattle.rdl_nodes.specs.Rows.{AreRows};
ghost use Rattle.rdl_block_numbers.specs.Named.{AreNames};
ghost use Rattle.rdl_block_numbers.specs.Numbers.{AreOwn};

use crate::field_names::FieldNames;
use rb_base::NoMemory;
use rdl_nodes::Row;
use rdl_tree::{Elab, Kind, Node};
use std::alloc::Global;
use std::collections::BTreeMap;

/// Numbers under the number of a node and a name, of two under the same the first.
#[derive(Drop)]
pub(crate) struct Names<'a> {
    nodes: BTreeMap<u32, FieldNames<'a>>,
}

/// What is listed for a node, and 0 past the list's end.
fn number_at(numbers: &[u32], node: u32) -> u32
    ensures { result ≡ slice_index numbers.now node }
{
    match numbers.get(node as usize) {
        Some(number) => *number,
        None => 0,
    }
}

impl<'a> Names<'a> {
    ghost use Rattle.std.specs.Prelude.{◌≡◌, ◌==◌, ℕ, List, None, Some, IfOk, OnOk, cond, false};
    ghost use Rattle.std.specs.Option.{option_or};
    ghost use Rattle.rdl_tree.specs.declared.node.Elab.{Elab as AnyElab};
    ghost use Rattle.rdl_values.specs.Elaborated.{nodes_of};
    ghost use Rattle.rdl_values.specs.Elaboration.{IsClean};
    ghost use Rattle.rdl_values.specs.Instances.{Instance, children};
    ghost use Rattle.rdl_values.specs.Lineages.{lineages_of};
    ghost use Rattle.rdl_nodes.specs.Rows.{AreInside};
    ghost use Rattle.rdl_block_numbers.specs.Named.{Key, added, named, number_named, number_under, same_key};
    ghost use Rattle.rdl_block_numbers.specs.Numbers.{AreOwn};

    /// No numbers yet.
    fn new(alloc: Global) -> Self
        ensures { (k : Key) → number_under result k ≡ None }
    {
        Names {
            nodes: BTreeMap::new(alloc),
        }
    }

    /// The first number under a node and a name.
    pub fn find(&self, body: u32, name: &[u8]) -> Option<u32>
        ensures { result ≡ number_under self.now (record { body = body; name = name.now }) }
    {
        match self.nodes.get(&body) {
            Some(names) => names.find(name),
            None => None,
        }
    }

    // Takes the numbers under a node out.
    fn take(&mut self, alloc: Global, body: u32) -> Result<FieldNames<'a>, NoMemory>
        ensures others { OnOk result ((k : Key) → (body == k.body) ≡ false → number_under self.new k ≡ number_under self.old k) }
        ensures taken { IfOk result (λ r. (n : List ℕ) → number_named r n ≡ number_under self.old (record { body = body; name = n })) }
    {
        match self.nodes.insert(body, FieldNames::new(alloc))? {
            Some(names) => Ok(names),
            None => Ok(FieldNames::new(alloc)),
        }
    }

    /// Puts in a number, where there is none yet.
    fn put(&mut self, alloc: Global, body: u32, name: &'a [u8], number: u32) -> Result<(), NoMemory>
        ensures { OnOk result ((k : Key) → number_under self.new k ≡ option_or (number_under self.old k) (cond (same_key (record { body = body; name = name.now }) k) (Some number) None)) }
    {
        let mut names = self.take(alloc, body)?;
        names.put(name, number)?;
        self.nodes.insert(body, names)?;
        Ok(())
    }

    /// Puts in the number of a node, where it is a field.
    fn add(
        &mut self,
        alloc: Global,
        body: u32,
        node: &Node<'a>,
        own: &[u32],
    ) -> Result<(), NoMemory>
        ensures { OnOk result ((k : Key) → number_under self.new k ≡ option_or (number_under self.old k) (added body node.now own.now k)) }
    {
        if node.kind != Kind::Field {
            return Ok(());
        }
        self.put(alloc, body, node.name, number_at(own, node.id))
    }

    /// Puts in the numbers of the fields of a node.
    fn add_all(
        &mut self,
        alloc: Global,
        body: u32,
        nodes: &'a [Node<'a>],
        own: &[u32],
    ) -> Result<(), NoMemory>
        ensures { OnOk result ((e : AnyElab) (up : List Instance) (n : Instance) → IsClean e → AreOwn e own.now → AreInside (lineages_of e) up nodes.now nodes.now (children n)
            → (k : Key) → number_under self.new k ≡ option_or (number_under self.old k) (named (nodes_of e) body n k)) }
    {
        for node in nodes {
            self.add(alloc, body, node, own)?;
        }
        Ok(())
    }
}

/// The numbers of the fields of each node of a tree, of which these are the rows and the numbers of nodes. The only error is want of memory.
pub(crate) fn names_of<'a>(
    alloc: Global,
    elab: &Elab<'_>,
    rows: &[Row<'a>],
    own: &[u32],
) -> Result<Names<'a>, NoMemory>
    requires clean { IsClean elab.now }
    requires rows { AreRows elab.now rows.now }
    requires own { AreOwn elab.now own.now }
    ensures { IfOk result (AreNames elab.now) }
{
    let mut names = Names::new(alloc);
    for at in 0..rows.len() {
        let row = &rows[at];
        names.add_all(alloc, row.node.id, row.node.children, own)?;
    }
    Ok(names)
}
