//! What has a section of the page: a word, or the words of all elements of an array of which the page says the same.

ghost use Rattle.std.specs.Prelude.{◌≡◌, ◌++◌, ◌∷◌, [], IfOk, OnOk, map};
ghost use Rattle.word_groups.specs.Paths.{names_and_indices as pieces_of};
ghost use Rattle.manual_sections.specs.Rows.{all_effects as effects_of};
ghost use Rattle.manual_units.specs.Units as spec;

use crate::lots::Lot;
use crate::marks::mark;
use manual_sections::{AllEffects, Pieces, WordUnit, all_effects};
use rb_base::NoMemory;
use rb_model::Block;
use std::alloc::Global;
use word_groups::{Entry, copy_of_entry, names_and_indices};

fn pieces(alloc: Global, entry: &Entry) -> Result<Pieces, NoMemory>
    ensures { IfOk result (λ r. r ≡ pieces_of entry.now.path) }
{
    let items = names_and_indices(alloc, &entry.path.bytes)?;
    Ok(Pieces { items })
}

fn effects(alloc: Global, block: &Block, entry: &Entry) -> Result<AllEffects, NoMemory>
    ensures { IfOk result (λ r. r ≡ effects_of block.now entry.now.parts) }
{
    let items = all_effects(alloc, block, &entry.parts.items)?;
    Ok(AllEffects { items })
}

fn unit(alloc: Global, block: &Block, entry: &Entry) -> Result<WordUnit, NoMemory>
    ensures { IfOk result (λ r. r ≡ spec.unit block.now entry.now) }
{
    Ok(WordUnit {
        entry: copy_of_entry(alloc, entry)?,
        pieces: pieces(alloc, entry)?,
        mark: mark(alloc, entry)?,
        effects: effects(alloc, block, entry)?,
    })
}

fn push_unit(
    alloc: Global,
    units: &mut Vec<WordUnit>,
    block: &Block,
    entry: &Entry,
) -> Result<(), NoMemory>
    ensures { OnOk result (units.new.items ≡ units.old.items ++ spec.unit block.now entry.now ∷ []) }
{
    units.push(unit(alloc, block, entry)?)?;
    Ok(())
}

fn push_units(
    alloc: Global,
    units: &mut Vec<WordUnit>,
    block: &Block,
    entries: &[Entry],
) -> Result<(), NoMemory>
    ensures { OnOk result (units.new.items ≡ units.old.items ++ map (spec.unit block.now) entries.now) }
{
    for entry in entries {
        push_unit(alloc, units, block, entry)?;
    }
    Ok(())
}

fn push_lot(
    alloc: Global,
    units: &mut Vec<WordUnit>,
    block: &Block,
    lot: &Lot,
) -> Result<(), NoMemory>
    ensures { OnOk result (units.new.items ≡ units.old.items ++ spec.lot_units block.now lot.now) }
{
    match &lot.whole {
        None => push_units(alloc, units, block, &lot.words.items),
        Some(entry) => push_unit(alloc, units, block, entry),
    }
}

/// What has a section, in order: of an array one unit, and else one for each word. The only error is want of memory.
pub fn units_of(alloc: Global, block: &Block, lots: &[Lot]) -> Result<Vec<WordUnit>, NoMemory>
    ensures { IfOk result (λ r. r.items ≡ spec.units block.now lots.now) }
{
    let mut units = Vec::new(alloc);
    for lot in lots {
        push_lot(alloc, &mut units, block, lot)?;
    }
    Ok(units)
}
