//! The registers of a tree, in node order.

ghost use Rattle.std.specs.Prelude.{◌≡◌, ◌+◌, IfOk, Some, slice_get};
ghost use Rattle.rdl_tree.specs.declared.node.Node.{out-Node};
ghost use Rattle.rdl_values.specs.Elaboration.{IsClean};
ghost use Rattle.rdl_values.specs.Lineages.{Lineage, lineages_of};
ghost use Rattle.rdl_layers.specs.Answers.{IsSettled};
ghost use Rattle.rdl_nodes.specs.Rows.{AreRows, IsRow};
ghost use Rattle.rdl_addr.specs.Answers.{IsPlaced};
ghost use Rattle.rdl_block_words.specs.Entries.{AreEntries, AreEntriesTo};

use crate::entry::PlacedRegister;
use crate::register::{behind, entry};
use rb_base::NoMemory;
use rdl_addr::Map;
use rdl_layers::Props;
use rdl_nodes::Row;
use std::alloc::Global;

/// Adds the node of a row, where it is a register, and answers the number of the next view. The only error is want of memory.
fn add_register<'a>(
    alloc: Global,
    props: &Props<'_>,
    map: &Map<'_>,
    row: &Row<'a>,
    first_view: u32,
    entries: &mut Vec<PlacedRegister<'a>>,
) -> Result<u32, NoMemory>
    requires clean { IsClean props.now }
    requires settled { IsSettled props.now }
    requires placed { IsPlaced props.now }
    requires map { map.now ≡ props.now }
    requires row { (l : Lineage) × (slice_get (lineages_of props.now) (out-Node row.now.node.now).id ≡ Some l) × IsRow props.now (lineages_of props.now) (out-Node row.now.node.now).id row.now l }
    requires before { AreEntriesTo props.now (out-Node row.now.node.now).id first_view entries.old.items }
    ensures { IfOk result (λ next. AreEntriesTo props.now ((out-Node row.now.node.now).id + 1) next entries.new.items) }
{
    let node = row.node;
    if !node.kind.is_register() {
        return Ok(first_view);
    }
    let at = behind(0, entries.len())?;
    let entry = entry(alloc, props, map, row, at, first_view)?;
    let next = entry.next_view;
    entries.push(entry)?;
    Ok(next)
}

/// The registers of a tree, of which these are the rows. The only error is want of memory.
pub(crate) fn registers<'a>(
    alloc: Global,
    props: &Props<'_>,
    map: &Map<'_>,
    rows: &[Row<'a>],
) -> Result<Vec<PlacedRegister<'a>>, NoMemory>
    requires clean { IsClean props.now }
    requires settled { IsSettled props.now }
    requires placed { IsPlaced props.now }
    requires map { map.now ≡ props.now }
    requires rows { AreRows props.now rows.now }
    ensures { IfOk result (λ xs. AreEntries props.now xs.items) }
{
    let mut entries = Vec::new(alloc);
    let mut next = 0;
    for at in 0..rows.len() {
        let row = &rows[at];
        next = add_register(alloc, props, map, row, next, &mut entries)?;
    }
    Ok(entries)
}
