//! What the parts of a word do.

ghost use Rattle.std.specs.Prelude.{◌≡◌, ◌≤◌, ◌<◌, [], IfOk, Some};
ghost use Rattle.manual_sections.specs.Rows as spec;

use crate::rows::{Effects, field_of, view_at};
use block_effects::effects_of;
use rb_base::NoMemory;
use rb_model::{Block, Field, Slot, View};
use std::alloc::Global;
use word_groups::Part;

fn fits(part: &Part, field: &Field) -> bool
    ensures { result ≡ spec.fits part.now field.now }
{
    part.bits > 0 && u16::from(part.from) + u16::from(part.bits) <= 64 && field.width <= 64
}

fn slot_of(part: &Part) -> Slot
    ensures { result ≡ spec.slot_of part.now }
{
    Slot {
        view: part.view,
        low: part.low,
        from: part.from,
        bits: part.bits,
    }
}

fn no_effects(alloc: Global) -> Effects
    ensures { result ≡ [] }
{
    Effects {
        items: Vec::new(alloc),
    }
}

fn field_effects(
    alloc: Global,
    part: &Part,
    view: &View,
    field: &Field,
) -> Result<Effects, NoMemory>
    ensures { IfOk result (λ r. r ≡ spec.field_effects part.now view.now (Some field.now)) }
{
    if !fits(part, field) {
        return Ok(no_effects(alloc));
    }
    let items = effects_of(alloc, &slot_of(part), view, field)?;
    Ok(Effects { items })
}

fn view_effects(alloc: Global, block: &Block, part: &Part, view: &View) -> Result<Effects, NoMemory>
    ensures { IfOk result (λ r. r ≡ spec.view_effects block.now part.now (Some view.now)) }
{
    match field_of(block, view) {
        None => Ok(no_effects(alloc)),
        Some(field) => field_effects(alloc, part, view, field),
    }
}

fn part_effects(alloc: Global, block: &Block, part: &Part) -> Result<Effects, NoMemory>
    ensures { IfOk result (λ r. r ≡ spec.part_effects block.now part.now) }
{
    match view_at(block, part.view) {
        None => Ok(no_effects(alloc)),
        Some(view) => view_effects(alloc, block, part, view),
    }
}

/// What each of these parts does. The only error is want of memory.
pub fn all_effects(alloc: Global, block: &Block, parts: &[Part]) -> Result<Vec<Effects>, NoMemory>
    ensures { IfOk result (λ r. r.items ≡ spec.all_effects block.now parts.now) }
{
    let mut all = Vec::new(alloc);
    for part in parts {
        all.push(part_effects(alloc, block, part)?)?;
    }
    Ok(all)
}
