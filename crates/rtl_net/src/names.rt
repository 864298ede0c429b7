//! Places under names, found by their bytes.

ghost use Rattle.std.specs.Prelude.{◌≡◌, ℕ, List, Some, None, OnOk, OnErr, cond, bytes_eq};
ghost use Rattle.rtl_net.specs.Places.{place_of};

use rb_base::NoMemory;
use std::alloc::Global;
use std::collections::BTreeMap;

/// Different names, each with a place. A source may choose them, so they are found in order and not by a hash.
#[derive(Drop)]
pub(crate) struct Names {
    places: BTreeMap<Vec<u8>, usize>,
}

impl Names {
    pub(crate) fn new(alloc: Global) -> Self
        ensures { (n : List ℕ) → place_of result n ≡ None }
    {
        Names {
            places: BTreeMap::new(alloc),
        }
    }

    /// The place of a name.
    pub(crate) fn find(&self, name: &[u8]) -> Option<usize>
        ensures { result ≡ place_of self.now name.now }
    {
        self.places.get(name).copied()
    }

    /// Puts a place under a name, or changes nothing.
    pub(crate) fn put(&mut self, alloc: Global, name: &[u8], place: usize) -> Result<(), NoMemory>
        ensures ok { OnOk result ((n : List ℕ) → place_of self.new n ≡ cond (bytes_eq name.now n) (Some place) (place_of self.old n)) }
        ensures err { OnErr result ((n : List ℕ) → place_of self.new n ≡ place_of self.old n) }
    {
        let bytes = Vec::from_slice(alloc, name)?;
        self.places.insert(bytes, place)?;
        Ok(())
    }
}
