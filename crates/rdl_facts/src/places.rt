//! The enumerations of a body by their names.

ghost use Rattle.std.specs.Prelude.{◌≡◌, find, nat_lt};

use rb_base::{NoMemory, Place};
use rdl_tree::{EnumValues, Name};
use std::alloc::Global;
use std::collections::BTreeMap;

/// An enumeration of a body: where its name stands, and its number among those of the body.
#[derive(Clone, Copy)]
pub struct Standing {
    pub place: u32,
    pub number: usize,
}

/// The enumerations of a body by their names, those of one name in text order.
#[derive(Drop)]
pub struct Places<'a> {
    by_name: BTreeMap<&'a [u8], Vec<Standing>>,
}

// The first of some enumerations that stands before a place.
fn first_before(list: &[Standing], end: Place) -> Option<Standing>
    ensures { result ≡ find (λ s. nat_lt s.place end.0) list.now }
{
    list.iter().copied().find(|of| of.place < end.0)
}

impl<'a> Places<'a> {
    ghost use Rattle.std.specs.Prelude.{◌≡◌, ◌∷◌, ◌++◌, [], ℕ, List, IfOk, OnOk, bytes_eq, cond};
    ghost use Rattle.rdl_facts.specs.Places.{ArePlaces, number_before, standing_of};

    // Those of a name.
    fn all<'s>(&'s self, name: &'s [u8]) -> &'s [Standing]
        ensures { result.now ≡ standing_of self.now name.now }
    {
        match self.by_name.get(name) {
            Some(list) => list,
            None => &[],
        }
    }

    /// The number of the enumeration that a name means: the first of those of its text that stand before it.
    pub fn before(&self, name: &Name<'_>) -> Option<usize>
        ensures { result ≡ number_before self.now name.now }
    {
        let first = first_before(self.all(name.text), name.place)?;
        Some(first.number)
    }

    // Takes those of a name out.
    fn take(&mut self, alloc: Global, name: &'a [u8]) -> Result<Vec<Standing>, NoMemory>
        ensures rest { OnOk result ((n : List ℕ) → standing_of self.new n ≡ cond (bytes_eq name.now n) [] (standing_of self.old n)) }
        ensures taken { IfOk result (λ r. r.items ≡ standing_of self.old name.now) }
    {
        match self.by_name.insert(name, Vec::new(alloc))? {
            Some(list) => Ok(list),
            None => Ok(Vec::new(alloc)),
        }
    }

    // Puts one behind the others of its name.
    fn put(&mut self, alloc: Global, name: &'a [u8], of: Standing) -> Result<(), NoMemory>
        ensures { OnOk result ((n : List ℕ) → standing_of self.new n ≡ standing_of self.old n ++ cond (bytes_eq name.now n) (of ∷ []) []) }
    {
        let mut list = self.take(alloc, name)?;
        list.push(of)?;
        self.by_name.insert(name, list)?;
        Ok(())
    }

    /// These enumerations.
    pub fn of(alloc: Global, enums: &[EnumValues<'a>]) -> Result<Self, NoMemory>
        ensures { IfOk result (λ t. ArePlaces t enums.now) }
    {
        let mut places = Places {
            by_name: BTreeMap::new(alloc),
        };
        for (number, of) in enums.iter().enumerate() {
            let place = of.name.place.0;
            places.put(alloc, of.name.text, Standing { place, number })?;
        }
        Ok(places)
    }
}
