//! Names, and what they mean.

use rb_base::NoMemory;
use std::alloc::Global;
use std::collections::BTreeMap;

/// A word by its byte address, or a pin by its place, and its width in bits.
#[derive(Clone, Copy, Debug, PartialEq, Eq)]
pub struct Meaning {
    /// The byte address, or the place, which counts from 0.
    pub at: u32,
    /// In bits.
    pub width: u8,
}

/// What names mean; of a name that is put in twice the first meaning counts. A look-up compares the name with some
/// tens of others at most.
#[derive(Drop)]
pub struct Table<'n> {
    meanings: BTreeMap<&'n [u8], Meaning>,
}

impl<'n> Table<'n> {
    ghost use Rattle.std.specs.Prelude.{◌≡◌, ℕ, List, None, Some, OnOk, cond, bytes_eq};
    ghost use Rattle.std.specs.Option.{option_or};
    ghost use Rattle.drive_names.specs.Table.{meaning_in};

    pub(crate) fn new(alloc: Global) -> Self
        ensures { (name : List ℕ) → meaning_in result name ≡ None }
    {
        Table {
            meanings: BTreeMap::new(alloc),
        }
    }

    /// What a name means, if it means anything. It takes no memory.
    pub fn find(&self, name: &[u8]) -> Option<Meaning>
        ensures { result ≡ meaning_in self.now name.now }
    {
        self.meanings.get(name).copied()
    }

    /// Gives a name a meaning, where it has none yet.
    pub(crate) fn put(&mut self, name: &'n [u8], meaning: Meaning) -> Result<(), NoMemory>
        ensures { OnOk result ((other : List ℕ) → meaning_in self.new other ≡ option_or (meaning_in self.old other) (cond (bytes_eq name.now other) (Some meaning) None)) }
    {
        if self.find(name).is_some() {
            return Ok(());
        }
        self.meanings.insert(name, meaning)?;
        Ok(())
    }
}
