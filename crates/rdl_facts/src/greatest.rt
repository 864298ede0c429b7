//! The greatest number of each enumeration of a body.

ghost use Rattle.std.specs.Prelude.{◌≡◌, ◌||◌, ℕ, map, nat_le};
ghost use Rattle.rdl_values.specs.Seen.{entry_of};
ghost use Rattle.rdl_facts.specs.Greatest.{IsGreatest, reaches};

use rb_base::NoMemory;
use rdl_tree::{EntryValue, EnumValues};
use std::alloc::Global;

/// The greatest numbers of the enumerations of a body, in order. One without entries has none.
#[derive(Drop)]
pub(crate) struct Greatest {
    numbers: Vec<Option<u64>>,
}

// The greater of a number and of one before, if there is one.
fn greater(before: Option<u64>, number: u64) -> u64
    ensures { (m : ℕ) → nat_le m result ≡ (reaches before m || nat_le m number) }
{
    match before {
        Some(before) if before > number => before,
        _ => number,
    }
}

// The greatest number of some entries, if there are any.
fn greatest_of(entries: &[EntryValue<'_>]) -> Option<u64>
    ensures { IsGreatest result (map entry_of entries.now) }
{
    let mut greatest = None;
    for entry in entries {
        greatest = Some(greater(greatest, entry.value));
    }
    greatest
}

impl Greatest {
    ghost use Rattle.std.specs.Prelude.{◌≡◌, IfOk};
    ghost use Rattle.rdl_facts.specs.Greatest.{AreGreatest, greatest_at};

    /// The greatest number of the enumeration of a number.
    pub fn at(&self, number: usize) -> Option<u64>
        ensures { result ≡ greatest_at self.now number }
    {
        match self.numbers.get(number) {
            Some(greatest) => *greatest,
            None => None,
        }
    }

    /// Those of these enumerations.
    pub fn of(alloc: Global, enums: &[EnumValues<'_>]) -> Result<Self, NoMemory>
        ensures { IfOk result (λ g. AreGreatest g enums.now) }
    {
        let mut numbers = Vec::new(alloc);
        for of in enums {
            numbers.push(greatest_of(of.entries))?;
        }
        Ok(Greatest { numbers })
    }
}
