//! The enumerations of one open body.

use crate::greatest::Greatest;
use crate::places::Places;
use rb_base::NoMemory;
use rdl_tree::{EnumValues, Name};
use std::alloc::Global;

/// The enumerations of a body by their names, and the greatest number of each.
#[derive(Drop)]
pub(crate) struct BodyEnums<'a> {
    places: Places<'a>,
    greatest: Greatest,
}

impl<'a> BodyEnums<'a> {
    ghost use Rattle.std.specs.Prelude.{◌≡◌, Some, IfOk, map};
    ghost use Rattle.rdl_values.specs.Seen.{listed_enum};
    ghost use Rattle.rdl_values.specs.Values.{Names};
    ghost use Rattle.rdl_facts.specs.Body.{AreEnumsOf, AreKept, kept_of, number_in};
    ghost use Rattle.rdl_facts.specs.Greatest.{greatest_at};

    /// These enumerations.
    pub fn of(alloc: Global, enums: &[EnumValues<'a>]) -> Result<Self, NoMemory>
        ensures { IfOk result (λ b. (names : Names) → names.enums ≡ map listed_enum enums.now → AreEnumsOf b names) }
    {
        let places = Places::of(alloc, enums)?;
        let greatest = Greatest::of(alloc, enums)?;
        Ok(BodyEnums { places, greatest })
    }

    /// These enumerations, if there are any.
    pub fn kept(alloc: Global, enums: &[EnumValues<'a>]) -> Result<Option<Box<Self>>, NoMemory>
        ensures { IfOk result (λ b. (names : Names) → names.enums ≡ map listed_enum enums.now → AreKept (kept_of (Some b)) names) }
    {
        if enums.is_empty() {
            return Ok(None);
        }
        let enums = BodyEnums::of(alloc, enums)?;
        Ok(Some(Box::new(alloc, enums)?))
    }

    /// The number of the enumeration that a name means, if it means one of the body.
    pub fn number(&self, name: &Name<'a>) -> Option<usize>
        ensures { result ≡ number_in self.now name.now }
    {
        self.places.before(name)
    }

    /// The greatest number of the enumeration of a number.
    pub fn greatest(&self, number: usize) -> Option<u64>
        ensures { result ≡ greatest_at self.now.greatest number }
    {
        self.greatest.at(number)
    }
}
