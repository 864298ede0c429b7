//! Lists of numbers, which contracts see as lists.

ghost use Rattle.std.specs.Prelude.{◌≡◌, IfOk};

use rb_base::NoMemory;
use std::alloc::Global;
use std::marker::Model;

/// Numbers, such as the indices of an array's element.
#[derive(Drop)]
pub struct Numbers {
    pub items: Vec<u32>,
}

impl Model for Numbers {
    ghost use Rattle.std.specs.Prelude.{List, ℕ};

    ghost Value = { List ℕ };

    ghost view = { λ all. all.items.items };
}

/// Numbers of their own, the same as these. The only error is want of memory.
pub(crate) fn copy_of_numbers(alloc: Global, numbers: &Numbers) -> Result<Numbers, NoMemory>
    ensures { IfOk result (λ r. r ≡ numbers.now) }
{
    let items = Vec::from_slice(alloc, &numbers.items)?;
    Ok(Numbers { items })
}
