//! The numbers of enumerations that were met in open bodies.

use rb_base::NoMemory;
use std::alloc::Global;
use std::collections::BTreeMap;

/// The numbers of enumerations, by the number of the body that has one and its number there.
#[derive(Drop)]
pub(crate) struct Known {
    numbers: BTreeMap<(usize, usize), u32>,
}

impl Known {
    ghost use Rattle.std.specs.Prelude.{◌≡◌, ◌&&◌, ℕ, None, Some, OnOk, cond, nat_eq};
    ghost use Rattle.rdl_encodings.specs.Known.{known_at};

    /// None yet.
    pub fn new(alloc: Global) -> Self
        ensures { (body within : ℕ) → known_at result body within ≡ None }
    {
        Known {
            numbers: BTreeMap::new(alloc),
        }
    }

    /// The number of an enumeration of a body, if it is known.
    pub fn find(&self, body: usize, within: usize) -> Option<u32>
        ensures { result ≡ known_at self.now body within }
    {
        self.numbers.get(&(body, within)).copied()
    }

    /// Makes a number known.
    pub fn put(&mut self, body: usize, within: usize, number: u32) -> Result<(), NoMemory>
        ensures { OnOk result ((b k : ℕ) → known_at self.new b k ≡ cond (nat_eq body b && nat_eq within k) (Some number) (known_at self.old b k)) }
    {
        self.numbers.insert((body, within), number)?;
        Ok(())
    }
}
