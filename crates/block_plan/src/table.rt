//! The places of items in tables.
ghost use Rattle.std.specs.Prelude.{◌≡◌, ◌<◌, ◌^◌, ℕ, Some, length, slice_get};
ghost use Rattle.rb_model.specs.declared.kinds.RefItem.{RefItem};
ghost use Rattle.block_plan.specs.Table as spec;

use rb_model::RefItem;

/// The place of an item in a table of items. A number has thirteen places, one for each kind of item.
pub fn item_place(item: RefItem) -> usize
    ensures place { result ≡ spec.item_place item }
    ensures small { result < 2 ^ 36 }
{
    match item {
        RefItem::Field(number) => number as usize * 13,
        RefItem::Signal(number) => number as usize * 13 + 1,
        RefItem::Anded(number) => number as usize * 13 + 2,
        RefItem::Ored(number) => number as usize * 13 + 3,
        RefItem::Xored(number) => number as usize * 13 + 4,
        RefItem::IncrThreshold(number) => number as usize * 13 + 5,
        RefItem::DecrThreshold(number) => number as usize * 13 + 6,
        RefItem::Overflow(number) => number as usize * 13 + 7,
        RefItem::Underflow(number) => number as usize * 13 + 8,
        RefItem::SwMod(number) => number as usize * 13 + 9,
        RefItem::SwAcc(number) => number as usize * 13 + 10,
        RefItem::Intr(number) => number as usize * 13 + 11,
        RefItem::Halt(number) => number as usize * 13 + 12,
    }
}

/// How many places a table of these items has: all their places are below it.
pub fn table_len(items: &[RefItem]) -> usize
    ensures { (k : ℕ) (i : RefItem) → slice_get items.now k ≡ Some i → spec.item_place i < result }
{
    let mut len = 0;
    for item in items {
        let end = item_place(*item) + 1;
        if end > len {
            len = end;
        }
    }
    len
}
