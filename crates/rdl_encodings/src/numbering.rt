//! The enumerations of fields, field by field.

use crate::enums::Enums;
use crate::meant::Meant;
use crate::numbers::Numbers;
use encodings::Encodings;
use rb_base::NoMemory;
use std::alloc::Global;

/// The enumerations by which the first fields are encoded, and the number of that of each.
#[derive(Drop)]
pub(crate) struct Numbering<'a> {
    numbers: Numbers<'a>,
    fields: Vec<Option<u32>>,
}

impl<'a> Numbering<'a> {
    ghost use Rattle.std.specs.Prelude.{◌≡◌, ◌∷◌, ◌++◌, [], List, IfOk, OnOk, option_map};
    ghost use Rattle.rdl_values.specs.Instances.{Instance};
    ghost use Rattle.rdl_encodings.specs.Encoded.{encoded_by, encodings_of as of_fields};
    ghost use Rattle.rdl_encodings.specs.Meant.{enum_meant};
    ghost use Rattle.rdl_encodings.specs.Numbered.{AreNumbered, IsNext};
    ghost use Rattle.rdl_encodings.specs.declared.enums.Enums.{Enums as AnyEnums};

    /// No fields yet.
    pub fn new(alloc: Global) -> Self
        ensures { (t : AnyEnums) → AreNumbered result t [] }
    {
        Numbering {
            numbers: Numbers::new(alloc),
            fields: Vec::new(alloc),
        }
    }

    // The number of the enumeration of the next field, if it is encoded by one.
    fn next(
        &mut self,
        alloc: Global,
        enums: &Enums<'a>,
        at: &Option<Meant<'a>>,
    ) -> Result<Option<u32>, NoMemory>
        ensures { IfOk result (λ number. (fs : List Instance) (f : Instance) → AreNumbered self.old enums.now fs → encoded_by f ≡ option_map (enum_meant enums.now) at.now → IsNext self.new enums.now fs f number) }
    {
        let Some(at) = at else {
            return Ok(None);
        };
        let Ok(field) = u32::try_from(self.fields.len()) else {
            return Err(NoMemory);
        };
        let number = self.numbers.number(alloc, enums, field, at)?;
        Ok(Some(number))
    }

    /// Puts one more field behind the others, with the enumeration by which it is encoded, if it is.
    pub fn add(
        &mut self,
        alloc: Global,
        enums: &Enums<'a>,
        at: &Option<Meant<'a>>,
    ) -> Result<(), NoMemory>
        ensures { OnOk result ((fs : List Instance) (f : Instance) → AreNumbered self.old enums.now fs → encoded_by f ≡ option_map (enum_meant enums.now) at.now → AreNumbered self.new enums.now (fs ++ (f ∷ []))) }
    {
        let number = self.next(alloc, enums, at)?;
        self.fields.push(number)?;
        Ok(())
    }

    /// Those of all fields.
    pub fn into_encodings(self) -> Encodings<'a>
        ensures { (t : AnyEnums) (fs : List Instance) → AreNumbered self.entry t fs → result ≡ of_fields fs }
    {
        Encodings {
            list: self.numbers.into_list(),
            fields: self.fields,
        }
    }
}
