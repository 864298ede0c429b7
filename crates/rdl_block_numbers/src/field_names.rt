//! The numbers of the fields of one node.

use rb_base::NoMemory;
use std::alloc::Global;
use std::collections::BTreeMap;

/// Numbers under names, of two under the same the first.
#[derive(Drop)]
pub(crate) struct FieldNames<'a> {
    numbers: BTreeMap<&'a [u8], u32>,
}

impl<'a> FieldNames<'a> {
    ghost use Rattle.std.specs.Prelude.{◌≡◌, ℕ, List, None, Some, OnOk, bytes_eq, cond};
    ghost use Rattle.std.specs.Option.{option_or};
    ghost use Rattle.rdl_block_numbers.specs.Named.{number_named};

    /// No numbers yet.
    pub fn new(alloc: Global) -> Self
        ensures { (n : List ℕ) → number_named result n ≡ None }
    {
        FieldNames {
            numbers: BTreeMap::new(alloc),
        }
    }

    /// The first number under a name.
    pub fn find(&self, name: &[u8]) -> Option<u32>
        ensures { result ≡ number_named self.now name.now }
    {
        self.numbers.get(name).copied()
    }

    /// Puts in a number, where there is none yet.
    pub fn put(&mut self, name: &'a [u8], number: u32) -> Result<(), NoMemory>
        ensures { OnOk result ((n : List ℕ) → number_named self.new n ≡ option_or (number_named self.old n) (cond (bytes_eq name.now n) (Some number) None)) }
    {
        if self.find(name).is_some() {
            return Ok(());
        }
        self.numbers.insert(name, number)?;
        Ok(())
    }
}
