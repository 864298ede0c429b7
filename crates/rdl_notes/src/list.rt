//! The notes of nodes, in order.

ghost use Rattle.std.specs.Prelude.{◌≡◌, ◌++◌, [], cond, IfOk, OnOk, filter, flat_map, map};
ghost use Rattle.rdl_tree.specs.declared.item.Kind.TheVariants as kinds;
ghost use Rattle.rdl_values.specs.Elaborated.{nodes_of};
ghost use Rattle.rdl_values.specs.Elaboration.{IsClean};
ghost use Rattle.rdl_values.specs.Lineages.{Lineage};
ghost use Rattle.rdl_nodes.specs.Rows.{AreRows};
ghost use Rattle.rdl_layers.specs.Fields.{fields_of, is_a};
ghost use Rattle.rdl_rules.specs.Numbers.{registers};
ghost use Rattle.rdl_notes.specs.Notes.{note_of};
ghost use Rattle.rdl_encodings.specs.Standing.{IsRowOf};

use crate::note::add_note;
use block_effects::Note;
use rb_base::NoMemory;
use rdl_layers::Props;
use rdl_nodes::Row;
use rdl_tree::Kind;
use std::alloc::Global;

/// The notes of the nodes of this kind. The only error is want of memory.
pub(crate) fn notes_of_kind<'a>(
    alloc: Global,
    props: &Props<'a>,
    rows: &[Row<'a>],
    kind: Kind,
) -> Result<Vec<Note<'a>>, NoMemory>
    requires clean { IsClean props.now }
    requires rows { AreRows props.now rows.now }
    ensures { IfOk result (λ list. list.items ≡ map note_of (filter (is_a kind) (nodes_of props.now))) }
{
    let mut list = Vec::new(alloc);
    for row in rows {
        add_note(props, row.node, kind, &mut list)?;
    }
    Ok(list)
}

/// Adds the notes of the fields of a node, where it is a register. The only error is want of memory.
fn add_views<'a>(props: &Props<'a>, row: &Row<'a>, list: &mut Vec<Note<'a>>) -> Result<(), NoMemory>
    requires clean { IsClean props.now }
    requires row { (l : Lineage) × IsRowOf props.now row.now l }
    ensures { OnOk result ((l : Lineage) → IsRowOf props.now row.now l → list.new.items ≡ list.old.items ++ cond (is_a kinds.Reg l.node) (map note_of (fields_of l.node)) []) }
{
    if !row.node.kind.is_register() {
        return Ok(());
    }
    for child in row.node.children {
        add_note(props, child, Kind::Field, list)?;
    }
    Ok(())
}

/// The notes of the views: of the fields of each register. The only error is want of memory.
pub(crate) fn view_notes<'a>(
    alloc: Global,
    props: &Props<'a>,
    rows: &[Row<'a>],
) -> Result<Vec<Note<'a>>, NoMemory>
    requires clean { IsClean props.now }
    requires rows { AreRows props.now rows.now }
    ensures { IfOk result (λ list. list.items ≡ flat_map (λ r. map note_of (fields_of r)) (registers (nodes_of props.now))) }
{
    let mut list = Vec::new(alloc);
    for row in rows {
        add_views(props, row, &mut list)?;
    }
    Ok(list)
}
