//! The table of the items' values.
ghost use Rattle.std.specs.Prelude.{◌≡◌, ◌<◌, ◌^◌, ℕ, Some, IfOk, map, slice_get, slice_index};
ghost use Rattle.rb_model.specs.declared.kinds.RefItem.{RefItem};
ghost use Rattle.rb_machine.specs.Table as spec;
ghost use Rattle.rb_machine.specs.Table.{values_of};

use rb_base::NoMemory;
use rb_model::RefItem;
use std::alloc::Global;

/// The place of an item's value. Most items are fields, so that these have every second place, and the others those between.
pub(crate) fn place_of(item: RefItem) -> usize
    ensures place { result ≡ spec.place_of item }
    ensures small { result < 2 ^ 37 }
{
    match item {
        RefItem::Field(number) => number as usize * 2,
        RefItem::Signal(number) => number as usize * 24 + 1,
        RefItem::Anded(number) => number as usize * 24 + 3,
        RefItem::Ored(number) => number as usize * 24 + 5,
        RefItem::Xored(number) => number as usize * 24 + 7,
        RefItem::IncrThreshold(number) => number as usize * 24 + 9,
        RefItem::DecrThreshold(number) => number as usize * 24 + 11,
        RefItem::Overflow(number) => number as usize * 24 + 13,
        RefItem::Underflow(number) => number as usize * 24 + 15,
        RefItem::SwMod(number) => number as usize * 24 + 17,
        RefItem::SwAcc(number) => number as usize * 24 + 19,
        RefItem::Intr(number) => number as usize * 24 + 21,
        RefItem::Halt(number) => number as usize * 24 + 23,
    }
}

/// The places of items' values, in the items' order.
pub(crate) fn item_places(alloc: Global, items: &[RefItem]) -> Result<Vec<usize>, NoMemory>
    ensures { IfOk result (λ all. all.items ≡ map spec.place_of items.now) }
{
    let mut all = Vec::new(alloc);
    for item in items {
        all.push(place_of(*item))?;
    }
    Ok(all)
}

/// How many places a table of these items has: all their places are below it.
pub(crate) fn table_len(items: &[RefItem]) -> usize
    ensures { (k : ℕ) (i : RefItem) → slice_get items.now k ≡ Some i → spec.place_of i < result }
{
    let mut len = 0;
    for item in items {
        let end = place_of(*item) + 1;
        if end > len {
            len = end;
        }
    }
    len
}

/// The number at a place, or 0 behind the last.
pub(crate) fn number_at(numbers: &[u64], place: usize) -> u64
    ensures { result ≡ slice_index numbers.now place }
{
    match numbers.get(place) {
        Some(number) => *number,
        None => 0,
    }
}

/// An item's value.
pub(crate) fn item_value(table: &[u64], item: RefItem) -> u64
    ensures { result ≡ values_of table.now item }
{
    number_at(table, place_of(item))
}
