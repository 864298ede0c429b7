//! The values that the fields of a block keep from one clock edge to the next.

ghost use Rattle.std.specs.Prelude.{◌≡◌, ◌++◌, IfOk, OnOk, map};
ghost use Rattle.rb_model.specs.Kept.{kept_of, when};
ghost use Rattle.block_plan.specs.Kept.{AreFieldKept, AreKeptOf, IsKeptAt, kept_seen};

use crate::members::number_of;
use rb_base::NoMemory;
use rb_effects::{is_storage, keeps_last};
use rb_model::Field;
use std::alloc::Global;

/// A kept value of the field of a number: its value, the last input of its interrupt, or that software wrote it.
#[derive(Clone, Copy, Debug, PartialEq, Eq)]
pub enum KeptValue {
    Val(u32),
    Last(u32),
    Done(u32),
}

/// The places of a field's kept values among those of the block. What the field doesn't keep has none.
#[derive(Clone, Copy, Debug, PartialEq, Eq)]
pub struct FieldKept {
    pub value: Option<usize>,
    pub last: Option<usize>,
    pub done: Option<usize>,
}

/// The kept values of a block's fields, in the order of its fields, and the places of those of each field.
#[derive(Drop)]
pub struct KeptValues {
    pub all: Vec<KeptValue>,
    pub of: Vec<FieldKept>,
}

/// Adds a value that is kept, and gives its place.
fn placed(
    all: &mut Vec<KeptValue>,
    is_kept: bool,
    value: KeptValue,
) -> Result<Option<usize>, NoMemory>
    ensures all { OnOk result (map kept_seen all.new.items ≡ map kept_seen all.old.items ++ when is_kept (kept_seen value)) }
    ensures place { IfOk result (IsKeptAt (map kept_seen all.new.items) is_kept (kept_seen value)) }
{
    if !is_kept {
        return Ok(None);
    }
    let place = all.len();
    all.push(value)?;
    Ok(Some(place))
}

/// Adds what the field of a number keeps, and gives the places.
fn placed_of(all: &mut Vec<KeptValue>, number: u32, field: &Field) -> Result<FieldKept, NoMemory>
    ensures all { OnOk result (map kept_seen all.new.items ≡ map kept_seen all.old.items ++ kept_of (number, field.now)) }
    ensures places { IfOk result (AreFieldKept (map kept_seen all.new.items) number field.now) }
{
    let value = placed(all, is_storage(field.class), KeptValue::Val(number))?;
    let last = placed(all, keeps_last(field.latch), KeptValue::Last(number))?;
    let done = placed(all, field.once, KeptValue::Done(number))?;
    Ok(FieldKept { value, last, done })
}

/// The kept values of fields.
pub(crate) fn kept_values(alloc: Global, fields: &[Field]) -> Result<KeptValues, NoMemory>
    ensures { IfOk result (AreKeptOf fields.now) }
{
    let mut all = Vec::new(alloc);
    let mut of = Vec::new(alloc);
    for (index, field) in fields.iter().enumerate() {
        of.push(placed_of(&mut all, number_of(index)?, field)?)?;
    }
    Ok(KeptValues { all, of })
}
