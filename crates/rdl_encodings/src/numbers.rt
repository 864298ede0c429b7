//! The numbers of enumerations.

use crate::distinct::Distinct;
use crate::enums::Enums;
use crate::known::Known;
use crate::meant::Meant;
use encodings::Encoding;
use rb_base::NoMemory;
use std::alloc::Global;

/// Enumerations in the order in which they were put in, each once, and their numbers. Entries are compared once for each
/// enumeration of a body, however many fields are encoded by them.
#[derive(Drop)]
pub(crate) struct Numbers<'a> {
    known: Known,
    distinct: Distinct<'a>,
}

impl<'a> Numbers<'a> {
    ghost use Rattle.std.specs.Prelude.{◌≡◌, [], ℕ, List, IfOk, Some, map};
    ghost use Rattle.rdl_values.specs.Values.{EnumOf};
    ghost use Rattle.rdl_encodings.specs.Meant.{enum_meant};
    ghost use Rattle.rdl_encodings.specs.Numbered.{AreNumbers};
    ghost use Rattle.rdl_encodings.specs.Same.{number_in, shown, with_one};
    ghost use Rattle.rdl_encodings.specs.declared.enums.Enums.{Enums as AnyEnums};

    /// None yet.
    pub fn new(alloc: Global) -> Self
        ensures { (t : AnyEnums) → AreNumbers result t [] }
    {
        Numbers {
            known: Known::new(alloc),
            distinct: Distinct::new(alloc),
        }
    }

    /// The number of an enumeration, which is put in behind the others where it is new, with the number of a field.
    pub fn number(
        &mut self,
        alloc: Global,
        enums: &Enums<'a>,
        field: u32,
        at: &Meant<'a>,
    ) -> Result<u32, NoMemory>
        ensures { IfOk result (λ number. (ls : List (ℕ × EnumOf)) → AreNumbers self.old enums.now ls → AreNumbers self.new enums.now (with_one ls field (enum_meant enums.now at.now)) × (number_in (with_one ls field (enum_meant enums.now at.now)) (enum_meant enums.now at.now) ≡ Some number)) }
    {
        if let Some(number) = self.known.find(at.body, at.number) {
            return Ok(number);
        }
        let key = enums.key(alloc, at.body, at.number)?;
        let number = self.distinct.number(alloc, field, at.name, key)?;
        self.known.put(at.body, at.number, number)?;
        Ok(number)
    }

    /// All of them.
    pub fn into_list(self) -> Vec<Encoding<'a>>
        ensures { (t : AnyEnums) (ls : List (ℕ × EnumOf)) → AreNumbers self.entry t ls → result.items ≡ map shown ls }
    {
        self.distinct.into_list()
    }
}
