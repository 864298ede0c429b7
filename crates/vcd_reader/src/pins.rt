//! The pins that a dump's variables are.

ghost use Rattle.std.specs.Prelude.{◌≡◌, ◌≤◌, IfOk, length};
ghost use Rattle.vcd_syntax.specs.Meaning.{pins_by};

use crate::word_set::WordSet;
use rb_base::{Pin, Text};
use std::alloc::{AllocError, Global};

fn copied(alloc: Global, name: &[u8]) -> Result<Text, AllocError>
    ensures { IfOk result (λ text. text ≡ name.now) }
{
    let bytes = Vec::from_slice(alloc, name)?;
    Ok(Text { bytes })
}

/// Pins with these names and widths.
pub(crate) fn pins_of(
    alloc: Global,
    names: &WordSet<'_>,
    widths: &[u8],
) -> Result<Vec<Pin>, AllocError>
    requires { length names.now ≡ length widths.now }
    ensures { IfOk result (λ pins. pins.items ≡ pins_by names.now widths.now) }
{
    let mut pins = Vec::new(alloc);
    for (at, width) in widths.iter().enumerate() {
        let Some(name) = names.get(at) else {
            unreachable!();
        };
        pins.push(Pin {
            name: copied(alloc, name)?,
            width: *width,
        })?;
    }
    Ok(pins)
}
