//! Notes that outlive their source.

ghost use Rattle.std.specs.Prelude.{◌≡◌, IfOk, map, option_copied};

use crate::text::keep;
use block_effects::{Group, Note, Notes};
use bumpalo::Bump;
use rb_base::{NoMemory, copy_of};
use std::alloc::Global;

fn keep_some<'n>(arena: &'n Bump, text: Option<&[u8]>) -> Result<Option<&'n [u8]>, NoMemory>
    ensures { IfOk result (λ r. option_copied r ≡ option_copied text.entry) }
{
    match text {
        Some(text) => {
            let kept = keep(arena, text)?;
            Ok(Some(kept))
        }
        None => Ok(None),
    }
}

fn keep_note<'n>(arena: &'n Bump, note: &Note<'_>) -> Result<Note<'n>, NoMemory>
    ensures { IfOk result (λ r. r ≡ note.now) }
{
    Ok(Note {
        name: keep_some(arena, note.name)?,
        desc: keep_some(arena, note.desc)?,
    })
}

fn keep_all<'n>(
    alloc: Global,
    arena: &'n Bump,
    notes: &[Note<'_>],
) -> Result<Vec<Note<'n>>, NoMemory>
    ensures { IfOk result (λ r. r.items ≡ notes.now) }
{
    let mut list = Vec::with_capacity(alloc, notes.len())?;
    for note in notes {
        let kept = keep_note(arena, note)?;
        list.push(kept)?;
    }
    Ok(list)
}

fn keep_group<'n>(alloc: Global, arena: &'n Bump, group: &Group<'_>) -> Result<Group<'n>, NoMemory>
    ensures { IfOk result (λ r. r ≡ group.now) }
{
    Ok(Group {
        path: copy_of(alloc, &group.path)?,
        note: keep_note(arena, &group.note)?,
    })
}

fn keep_groups<'n>(
    alloc: Global,
    arena: &'n Bump,
    groups: &[Group<'_>],
) -> Result<Vec<Group<'n>>, NoMemory>
    ensures { IfOk result (λ r. r.items ≡ groups.now) }
{
    let mut list = Vec::with_capacity(alloc, groups.len())?;
    for group in groups {
        let kept = keep_group(alloc, arena, group)?;
        list.push(kept)?;
    }
    Ok(list)
}

fn keep_each<'n>(
    alloc: Global,
    arena: &'n Bump,
    enums: &[Vec<Note<'_>>],
) -> Result<Vec<Vec<Note<'n>>>, NoMemory>
    ensures { IfOk result (λ r. map (λ v. v.items) r.items ≡ map (λ v. v.items) enums.now) }
{
    let mut list = Vec::with_capacity(alloc, enums.len())?;
    for notes in enums {
        let kept = keep_all(alloc, arena, notes)?;
        list.push(kept)?;
    }
    Ok(list)
}

/// The same notes, with their texts in the arena. The only error is want of memory.
pub fn keep_notes<'n>(
    alloc: Global,
    arena: &'n Bump,
    notes: &Notes<'_>,
) -> Result<Notes<'n>, NoMemory>
    ensures { IfOk result (λ r. r ≡ notes.now) }
{
    Ok(Notes {
        top: keep_note(arena, &notes.top)?,
        regs: keep_all(alloc, arena, &notes.regs)?,
        views: keep_all(alloc, arena, &notes.views)?,
        signals: keep_all(alloc, arena, &notes.signals)?,
        groups: keep_groups(alloc, arena, &notes.groups)?,
        enums: keep_each(alloc, arena, &notes.enums)?,
    })
}
