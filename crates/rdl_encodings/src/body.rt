//! The enumerations of one open body.

use rb_base::NoMemory;
use rdl_facts::Places;
use rdl_tree::{EnumValues, Name};
use std::alloc::Global;

/// The enumerations of a body, by their names and in order.
#[derive(Drop)]
pub(crate) struct BodyEnums<'a> {
    places: Places<'a>,
    list: &'a [EnumValues<'a>],
}

impl<'a> BodyEnums<'a> {
    ghost use Rattle.std.specs.Prelude.{◌≡◌, IfOk, map, slice_get};
    ghost use Rattle.rdl_values.specs.Seen.{listed_enum};
    ghost use Rattle.rdl_values.specs.Values.{Names};
    ghost use Rattle.rdl_encodings.specs.Body.{AreEnumsOf, number_in};

    /// These enumerations.
    pub fn of(alloc: Global, enums: &'a [EnumValues<'a>]) -> Result<Self, NoMemory>
        ensures { IfOk result (λ b. (names : Names) → names.enums ≡ map listed_enum enums.now → AreEnumsOf b names) }
    {
        let places = Places::of(alloc, enums)?;
        Ok(BodyEnums {
            places,
            list: enums,
        })
    }

    /// The number of the enumeration that a name means, if it means one of the body.
    pub fn number(&self, name: &Name<'a>) -> Option<usize>
        ensures { result ≡ number_in self.now name.now }
    {
        self.places.before(name)
    }

    /// The enumeration of a number.
    pub fn at(&self, number: usize) -> Option<EnumValues<'a>>
        ensures { result ≡ slice_get self.now.list.now number }
    {
        self.list.get(number).copied()
    }
}
