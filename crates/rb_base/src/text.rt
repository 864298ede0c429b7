ghost use Rattle.std.specs.Prelude.{◌≡◌, IfOk, List, ℕ};

use crate::memory::NoMemory;
use std::alloc::Global;
use std::marker::Model;

/// A list of bytes, such as a name. Contracts see it as a list of numbers below 256.
#[derive(Drop)]
pub struct Text {
    pub bytes: Vec<u8>,
}

impl Model for Text {
    ghost Value = { List ℕ };

    ghost view = { λ text. text.bytes.items };
}

/// A text of its own, the same as this. The only error is want of memory.
pub fn copy_of(alloc: Global, text: &Text) -> Result<Text, NoMemory>
    ensures { IfOk result (λ t. t ≡ text.now) }
{
    let bytes = Vec::from_slice(alloc, &text.bytes)?;
    Ok(Text { bytes })
}
