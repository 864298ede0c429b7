//! All items in order, and where those of each node start.

ghost use Rattle.std.specs.Prelude.{◌≡◌, ◌<◌, ◌≤◌, ◌^◌, IfOk, OnErr, slice_get};
ghost use Rattle.rdl_values.specs.Elaboration.{IsClean};
ghost use Rattle.rdl_nodes.specs.Rows.{AreRows};
ghost use Rattle.rdl_bind.specs.Numbered.{AreNumbers};

use crate::own::{add_items, before, whats};
use rb_base::{NoMemory, Place};
use rdl_nodes::Row;
use rdl_refs::ItemOf;
use rdl_tree::Elab;
use std::alloc::Global;

/// All items of a tree in the order of their numbers, the place of each one's node, and for each node the number of its first item.
#[derive(Drop)]
pub struct Numbers {
    pub items: Vec<ItemOf>,
    pub places: Vec<Place>,
    pub firsts: Vec<u32>,
}

fn first_at(firsts: &[u32], node: u32) -> Option<u32>
    ensures { result ≡ slice_get firsts.now node }
{
    firsts.get(node as usize).copied()
}

impl Numbers {
    ghost use Rattle.std.specs.Prelude.{◌≡◌, Contains, Some};
    ghost use Rattle.rdl_tree.specs.declared.node.Elab.{Elab as AnyElab};
    ghost use Rattle.rdl_values.specs.Elaborated.{nodes_of};
    ghost use Rattle.rdl_values.specs.Elaboration.{IsClean};
    ghost use Rattle.rdl_values.specs.Instances.{kind_of};
    ghost use Rattle.rdl_values.specs.Lineages.{lineages_of};
    ghost use Rattle.rdl_refs.specs.Answers.{IsItemOf};
    ghost use Rattle.rdl_refs.specs.Follows.{item_number};
    ghost use Rattle.rdl_refs.specs.Items.{Item, whats};
    ghost use Rattle.rdl_bind.specs.Numbered.{AreNumbers};

    /// The number of an item that its node has.
    pub fn number(&self, item: ItemOf) -> Option<u32>
        ensures { (e : AnyElab) (i : Item) → IsClean e → AreNumbers e self.now → IsItemOf (nodes_of e) item i → Contains (whats (kind_of i.node)) i.what → result ≡ Some (item_number (lineages_of e) i) }
    {
        let Some(first) = first_at(&self.firsts, item.node) else {
            return None;
        };
        let Some(number) = first.checked_add(before(item.what)) else {
            return None;
        };
        Some(number)
    }
}

/// A count below 2^32. The only error is another.
fn small(count: usize) -> Result<u32, NoMemory>
    ensures is { IfOk result (λ n. n ≡ count) }
    ensures below { IfOk result (λ n. count < 2 ^ 32) }
    ensures over { OnErr result (2 ^ 32 ≤ count) }
{
    match u32::try_from(count) {
        Ok(small) => Ok(small),
        Err(_) => Err(NoMemory),
    }
}

// How many items the nodes of some rows have.
fn count_items(rows: &[Row<'_>]) -> usize {
    let mut count: usize = 0;
    for row in rows {
        count = count.saturating_add(whats(row.node.kind).len());
    }
    count
}

/// The numbers of the items of a tree, of which these are the rows. The only error is want of memory.
pub fn item_numbers(alloc: Global, elab: &Elab<'_>, rows: &[Row<'_>]) -> Result<Numbers, NoMemory>
    requires clean { IsClean elab.now }
    requires rows { AreRows elab.now rows.now }
    ensures { IfOk result (AreNumbers elab.now) }
{
    let count = count_items(rows);
    let mut items = Vec::with_capacity(alloc, count)?;
    let mut places = Vec::with_capacity(alloc, count)?;
    let mut firsts = Vec::with_capacity(alloc, rows.len())?;
    for at in 0..rows.len() {
        let first = small(items.len())?;
        firsts.push(first)?;
        let node = rows[at].node;
        add_items(node.id, node.kind, node.place, &mut items, &mut places)?;
    }
    small(items.len())?;
    Ok(Numbers {
        items,
        places,
        firsts,
    })
}
