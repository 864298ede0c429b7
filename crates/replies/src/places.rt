//! Places as lines and columns.

ghost use Rattle.std.specs.Prelude.{◌≡◌, ◌≤◌, ◌<◌, ◌-◌, ◌^◌, ◌++◌, length, OnOk};
ghost use Rattle.verdict_text.specs.Lines.{at_place};

use rb_base::{NoMemory, Place, line_column};
use std::alloc::Global;

/// Adds the line and the column of a place.
pub(crate) fn push_place(
    alloc: Global,
    text: &mut Vec<u8>,
    bytes: &[u8],
    place: Place,
) -> Result<(), NoMemory>
    requires inside { place.0 ≤ length bytes.now }
    requires short { length bytes.now < 2 ^ 32 - 1 }
    ensures { OnOk result (text.new.items ≡ text.old.items ++ at_place bytes.now place.0) }
{
    let (line, column) = line_column(bytes, place);
    let numbers = format!(in alloc; ":{line}:{column}: ")?;
    text.extend_from_slice(numbers.as_bytes())?;
    Ok(())
}
