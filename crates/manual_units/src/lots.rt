//! Words that stand together, and the array that they are, if the page says the same of all its elements.

ghost use Rattle.std.specs.Prelude.{◌≡◌, IfOk};
ghost use Rattle.rb_model.specs.Sound.{IsSound};
ghost use Rattle.manual_units.specs.Units as spec;

use crate::likeness::are_like;
use block_effects::Notes;
use encodings::Encodings;
use rb_base::NoMemory;
use rb_model::Block;
use std::alloc::Global;
use word_groups::{Entry, Group, array_of, copy_of_entry, groups_of};

/// Words of one number, of registers whose paths differ in indices alone.
#[derive(Drop)]
pub struct Lot {
    /// The words, in the order of the address table.
    pub words: Group,
    /// The array that they are, if the page says the same of all its elements.
    pub whole: Option<Entry>,
}

fn whole_of(
    alloc: Global,
    block: &Block,
    notes: &Notes<'_>,
    encodings: &Encodings<'_>,
    group: &[Entry],
) -> Result<Option<Entry>, NoMemory>
    ensures { IfOk result (λ r. r ≡ spec.whole block.now notes.now encodings.now group.now) }
{
    let Some(entry) = array_of(alloc, group)? else {
        return Ok(None);
    };
    if are_like(alloc, block, notes, encodings, group)? {
        Ok(Some(entry))
    } else {
        Ok(None)
    }
}

fn copies(alloc: Global, entries: &[Entry]) -> Result<Group, NoMemory>
    ensures { IfOk result (λ r. r ≡ entries.now) }
{
    let mut items = Vec::new(alloc);
    for entry in entries {
        items.push(copy_of_entry(alloc, entry)?)?;
    }
    Ok(Group { items })
}

fn lot_of(
    alloc: Global,
    block: &Block,
    notes: &Notes<'_>,
    encodings: &Encodings<'_>,
    group: &[Entry],
) -> Result<Lot, NoMemory>
    ensures { IfOk result (λ r. r ≡ spec.lot block.now notes.now encodings.now group.now) }
{
    let whole = whole_of(alloc, block, notes, encodings, group)?;
    let words = copies(alloc, group)?;
    Ok(Lot { words, whole })
}

/// The words of a sound block that stand together. The only error is want of memory.
pub fn lots_of(
    alloc: Global,
    block: &Block,
    notes: &Notes<'_>,
    encodings: &Encodings<'_>,
) -> Result<Vec<Lot>, NoMemory>
    requires { IsSound block.now }
    ensures { IfOk result (λ r. r.items ≡ spec.lots block.now notes.now encodings.now) }
{
    let groups = groups_of(alloc, block)?;
    let mut lots = Vec::new(alloc);
    for group in &groups {
        lots.push(lot_of(alloc, block, notes, encodings, &group.items)?)?;
    }
    Ok(lots)
}
