//! The places of groups by their keys.

use rb_base::NoMemory;
use std::alloc::Global;
use std::collections::BTreeMap;

/// At which place of a list a key stands first.
#[derive(Drop)]
pub struct Places<'k> {
    places: BTreeMap<&'k [u8], usize>,
}

impl<'k> Places<'k> {
    ghost use Rattle.std.specs.Prelude.{◌≡◌, ℕ, List, None, Some, OnOk, bytes_eq, cond};
    ghost use Rattle.word_groups.specs.Places.{place_in};

    pub(crate) fn new(alloc: Global) -> Self
        ensures { (key : List ℕ) → place_in result key ≡ None }
    {
        Places {
            places: BTreeMap::new(alloc),
        }
    }

    pub(crate) fn find(&self, key: &[u8]) -> Option<usize>
        ensures { result ≡ place_in self.now key.now }
    {
        self.places.get(key).copied()
    }

    pub(crate) fn put(&mut self, key: &'k [u8], place: usize) -> Result<(), NoMemory>
        ensures { OnOk result ((other : List ℕ) → place_in self.new other ≡ cond (bytes_eq key.now other) (Some place) (place_in self.old other)) }
    {
        self.places.insert(key, place)?;
        Ok(())
    }
}
