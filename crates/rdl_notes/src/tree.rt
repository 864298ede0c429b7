//! The notes of a tree.

ghost use Rattle.std.specs.Prelude.{◌≡◌, ℕ, IfOk, List, Option};
ghost use Rattle.rdl_values.specs.Elaboration.{Elaborates, IsClean};
ghost use Rattle.rdl_encodings.specs.Encoded.{source_encodings};
ghost use Rattle.rdl_notes.specs.Notes as spec;

use crate::entries::entry_notes;
use crate::groups::groups_of;
use crate::list::{notes_of_kind, view_notes};
use crate::note::note_at;
use block_effects::Notes;
use encodings::Encodings;
use rb_base::NoMemory;
use rdl_layers::Props;
use rdl_nodes::rows;
use rdl_tree::{Elab, Kind};
use rdl_values::name_decides_the_top;
use std::alloc::Global;

/// What the source of a tree says of the parts of its block, whose enumerations are given: slices of the source, in the order of the
/// block's lists. The only error is want of memory.
pub fn notes_of<'a>(
    alloc: Global,
    props: &Props<'a>,
    elab: &Elab<'a>,
    encodings: &Encodings<'_>,
) -> Result<Notes<'a>, NoMemory>
    requires clean { IsClean elab.now }
    requires props { props.now ≡ elab.now }
    ensures { IfOk result (λ n. (wanted : Option (List ℕ)) → Elaborates wanted elab.now.source.now elab.now → encodings.now ≡ source_encodings wanted elab.now.source.now → n ≡ spec.notes_of wanted elab.now.source.now) }
{
    name_decides_the_top();
    let rows = rows(alloc, elab)?;
    let regs = notes_of_kind(alloc, props, &rows, Kind::Reg)?;
    let views = view_notes(alloc, props, &rows)?;
    let signals = notes_of_kind(alloc, props, &rows, Kind::Signal)?;
    let groups = groups_of(alloc, props, elab, &rows)?;
    let enums = entry_notes(alloc, elab.source, encodings)?;
    let top = note_at(props, elab.top.id);
    Ok(Notes {
        top,
        regs,
        views,
        signals,
        groups,
        enums,
    })
}
