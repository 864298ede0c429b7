//! Items in turn.

ghost use Rattle.std.specs.Prelude.{◌≡◌, ◌<◌, ◌++◌, ℕ, IfOk, OnOk, length, flat_map, option_to_list, slice_get};
ghost use Rattle.rdl_values.specs.Lineages.{lineages_of};
ghost use Rattle.rdl_refs.specs.Follows.{edges_of};
ghost use Rattle.rdl_refs.specs.Graph.{IsOrder};
ghost use Rattle.rdl_refs.specs.Items.{Item, items};
ghost use Rattle.rdl_ref_items.specs.Named.{IsItemAt};
ghost use Rattle.rdl_block_laws.specs.Ordered.{in_turn, shown_as};
ghost use Rattle.rdl_block_lists.specs.Listed.{IsListed};

use crate::reference::ref_to;
use rb_base::NoMemory;
use rb_model::RefItem;
use rdl_layers::Props;
use rdl_nodes::Row;
use rdl_ref_items::{InterruptOutputs, is_in_alias, is_missing};
use rdl_refs::{ItemOf, Refs};
use std::alloc::Global;

/// A tree: its settings, its references, its rows, the marks of its registers, and the numbers of its nodes in the lists of their kinds.
#[derive(Clone, Copy)]
pub struct Listed<'t, 'a> {
    pub props: &'t Props<'a>,
    pub refs: &'t Refs<'a>,
    pub rows: &'t [Row<'a>],
    pub marks: &'t [InterruptOutputs],
    pub own: &'t [u32],
}

// What an item is in the block: nothing where it is missing, or an alias's.
fn shown(known: Listed<'_, '_>, item: ItemOf) -> Option<RefItem>
    requires known { IsListed known }
    requires item { (i : Item) × IsItemAt known.props.now i item }
    ensures { (i : Item) → IsItemAt known.entry.props.now i item → option_to_list result ≡ shown_as (lineages_of known.entry.props.now) i }
{
    if is_missing(known.props, known.marks, item) {
        return None;
    }
    if is_in_alias(known.rows, item) {
        return None;
    }
    let row = &known.rows[item.node as usize];
    let number = known.own[item.node as usize];
    Some(ref_to(row.node.kind, item.what, number))
}

// Adds what the item of a number is in the block.
fn add_shown(known: Listed<'_, '_>, number: u32, list: &mut Vec<RefItem>) -> Result<(), NoMemory>
    requires known { IsListed known }
    requires number { number < length (items (lineages_of known.props.now)) }
    ensures { OnOk result (list.new.items ≡ list.old.items ++ flat_map (shown_as (lineages_of known.entry.props.now)) (option_to_list (slice_get (items (lineages_of known.entry.props.now)) number))) }
{
    let item = known.refs.items()[number as usize];
    if let Some(shown) = shown(known, item) {
        list.push(shown)?;
    }
    Ok(())
}

/// The items of the block of a tree, in an order of all items of the tree. The only error is want of memory.
pub fn block_order(
    alloc: Global,
    known: Listed<'_, '_>,
    order: &[u32],
) -> Result<Vec<RefItem>, NoMemory>
    requires known { IsListed known }
    requires order { IsOrder (edges_of (lineages_of known.props.now)) order.now }
    ensures { IfOk result (λ r. r.items ≡ in_turn (lineages_of known.entry.props.now) order.now) }
{
    let mut list = Vec::new(alloc);
    for number in order {
        add_shown(known, *number, &mut list)?;
    }
    list.shrink_to_fit();
    Ok(list)
}
