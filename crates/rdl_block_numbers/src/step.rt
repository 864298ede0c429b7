//! The text of a path, step by step.

ghost use Rattle.std.specs.Prelude.{◌≡◌, ◌++◌, ◌∷◌, IfOk, OnOk, decimal};
ghost use Rattle.std.specs.Option.{option_copied};
ghost use Rattle.rdl_block_numbers.specs.Texts.{below, step_text};

use itoa::Buffer;
use rb_base::{NoMemory, Text};
use std::alloc::Global;

/// Puts an index behind a text.
fn push_index(bytes: &mut Vec<u8>, index: u64) -> Result<(), NoMemory>
    ensures { OnOk result (bytes.new.items ≡ bytes.old.items ++ (36 ∷ decimal index)) }
{
    let mut digits = Buffer::new();
    bytes.push(b'$')?;
    bytes.extend_from_slice(digits.format(index).as_bytes())?;
    Ok(())
}

/// Puts a step's name and indices behind a text.
fn push_step(bytes: &mut Vec<u8>, name: &[u8], index: &[u64]) -> Result<(), NoMemory>
    ensures { OnOk result (bytes.new.items ≡ bytes.old.items ++ step_text name.now index.now) }
{
    bytes.extend_from_slice(name)?;
    for each in index {
        push_index(bytes, *each)?;
    }
    Ok(())
}

/// A step's text, behind that of a path and a separator, if there is one.
pub(crate) fn text_below(
    alloc: Global,
    front: Option<&[u8]>,
    name: &[u8],
    index: &[u64],
) -> Result<Text, NoMemory>
    ensures { IfOk result (λ t. t ≡ below (option_copied front.entry) name.now index.now) }
{
    let mut bytes = Vec::new(alloc);
    if let Some(front) = front {
        bytes.extend_from_slice(front)?;
        bytes.push(b'$')?;
    }
    push_step(&mut bytes, name, index)?;
    Ok(Text { bytes })
}
