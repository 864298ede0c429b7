//! The uses before one in its body.

ghost use Rattle.std.specs.Prelude.{◌≡◌, unwrap_or, slice_get, false};

use rb_base::NoMemory;
use rdl_tree::Name;
use rdl_values::Firsts;
use std::alloc::Global;

/// The uses of a body before one: the first of each name, and whether it is a register that may be the primary of an alias.
#[derive(Drop)]
pub struct Earlier<'a> {
    places: Firsts<'a>,
    primaries: Vec<bool>,
}

// Whether the use at a place is a primary.
fn primary_at(primaries: &[bool], place: usize) -> bool
    ensures { result ≡ unwrap_or (slice_get primaries.now place) false }
{
    primaries.get(place).copied().unwrap_or(false)
}

impl<'a> Earlier<'a> {
    ghost use Rattle.std.specs.Prelude.{◌≡◌, List, [], ◌∷◌, ◌++◌, OnOk};
    ghost use Rattle.std.specs.List.{list_any};
    ghost use Rattle.rdl_values.specs.NoNode as spec;
    ghost use Rattle.rdl_values.specs.Uses.{Use, same_name};
    ghost use Rattle.rdl_uses.specs.Before.{AreEarlier};

    /// No uses yet.
    pub fn new(alloc: Global) -> Self
        ensures { AreEarlier result [] }
    {
        Earlier {
            places: Firsts::new(alloc),
            primaries: Vec::new(alloc),
        }
    }

    /// Whether one has the name.
    pub(crate) fn has(&self, name: &Name) -> bool
        ensures { (us : List Use) → AreEarlier self.now us → result ≡ list_any (λ u. same_name u.name name.now) us }
    {
        self.places.find(name.text).is_some()
    }

    /// Whether the first one of the name is a primary.
    pub(crate) fn has_primary(&self, name: &Name) -> bool
        ensures { (us : List Use) → AreEarlier self.now us → result ≡ spec.has_primary us name.now }
    {
        match self.places.find(name.text) {
            Some(place) => primary_at(&self.primaries, place),
            None => false,
        }
    }

    /// Puts a use behind the others.
    pub fn push(&mut self, name: &Name<'a>, primary: bool) -> Result<(), NoMemory>
        ensures { OnOk result ((us : List Use) (u : Use) → AreEarlier self.old us → u.name ≡ name.now → spec.is_primary u ≡ primary → AreEarlier self.new (us ++ (u ∷ []))) }
    {
        let place = self.primaries.len();
        self.places.put(name.text, place)?;
        self.primaries.push(primary)?;
        Ok(())
    }
}
