//! Which place in a list is the first of a name.

use rb_base::NoMemory;
use std::alloc::Global;
use std::collections::BTreeMap;

/// Places under names, of two of one name the first.
#[derive(Drop)]
pub struct Firsts<'a> {
    places: BTreeMap<&'a [u8], usize>,
}

impl<'a> Firsts<'a> {
    ghost use Rattle.std.specs.Prelude.{◌≡◌, ℕ, List, None, Some, OnErr, OnOk, IfOk, is_some, cond, bytes_eq};
    ghost use Rattle.std.specs.Option.{option_or};
    ghost use Rattle.rdl_values.specs.Firsts.{place_of};

    /// No names yet.
    pub fn new(alloc: Global) -> Self
        ensures { (n : List ℕ) → place_of result n ≡ None }
    {
        Firsts {
            places: BTreeMap::new(alloc),
        }
    }

    /// The first place of the name.
    pub fn find(&self, name: &[u8]) -> Option<usize>
        ensures { result ≡ place_of self.now name.now }
    {
        self.places.get(name).copied()
    }

    /// Puts a name at a place, where it has none yet, and answers whether it has one. It changes nothing where memory is wanting.
    pub fn put(&mut self, name: &'a [u8], place: usize) -> Result<bool, NoMemory>
        ensures again { IfOk result (λ again. again ≡ is_some (place_of self.old name.now)) }
        ensures put { OnOk result ((n : List ℕ) → place_of self.new n ≡ option_or (place_of self.old n) (cond (bytes_eq name.now n) (Some place) None)) }
        ensures unchanged { OnErr result ((n : List ℕ) → place_of self.new n ≡ place_of self.old n) }
    {
        if self.find(name).is_some() {
            return Ok(true);
        }
        self.places.insert(name, place)?;
        Ok(false)
    }
}
