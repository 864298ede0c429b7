//! Places in a list, in order.

use rb_base::NoMemory;
use std::alloc::Global;
use std::collections::BTreeSet;

/// Some places in a list.
#[derive(Drop)]
pub struct Places {
    set: BTreeSet<usize>,
}

impl Places {
    ghost use Rattle.std.specs.Prelude.{◌≡◌, ℕ, OnOk, ◌||◌, false, nat_eq};
    ghost use Rattle.rdl_values.specs.Places.{IsNextPlace, has_place};

    /// None yet.
    pub fn new(alloc: Global) -> Self
        ensures { (k : ℕ) → has_place result k ≡ false }
    {
        Places {
            set: BTreeSet::new(alloc),
        }
    }

    /// Puts a place among them.
    pub fn put(&mut self, place: usize) -> Result<(), NoMemory>
        ensures { OnOk result ((k : ℕ) → has_place self.new k ≡ (nat_eq place k || has_place self.old k)) }
    {
        self.set.insert(place)?;
        Ok(())
    }

    /// The first of them from a place on.
    pub fn next(&self, from: usize) -> Option<usize>
        ensures { IsNextPlace (has_place self.now) from result }
    {
        self.set.range(from..).next().copied()
    }
}
