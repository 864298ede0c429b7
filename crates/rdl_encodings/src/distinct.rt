//! Enumerations, each once.

ghost use Rattle.std.specs.Prelude.{◌≡◌, ℕ, List, IfOk, Some, map};
ghost use Rattle.rdl_values.specs.Seen.{entry_of};
ghost use Rattle.rdl_values.specs.Table.{entries_by};
ghost use Rattle.rdl_encodings.specs.Body.{under};
ghost use Rattle.rdl_encodings.specs.Keyed.{enum_of_key};

use encodings::Encoding;
use rb_base::NoMemory;
use rdl_tree::{EntryValue, EnumValues};
use std::alloc::Global;
use std::collections::BTreeMap;

/// What decides which enumeration one is: where its name stands, and its entries.
#[derive(PartialEq, Eq, PartialOrd, Ord, Drop)]
pub(crate) struct EnumKey<'a> {
    pub place: u32,
    pub entries: Vec<(&'a [u8], u64)>,
}

/// Enumerations in the order in which they were put in, each once. A look-up compares entries with those of some tens of others at most.
#[derive(Drop)]
pub(crate) struct Distinct<'a> {
    numbers: BTreeMap<EnumKey<'a>, u32>,
    list: Vec<Encoding<'a>>,
}

// The entries of an enumeration under their texts.
fn entries_of<'a>(
    alloc: Global,
    entries: &[EntryValue<'a>],
) -> Result<Vec<(&'a [u8], u64)>, NoMemory>
    ensures { IfOk result (λ list. entries_by list.items ≡ map entry_of entries.now) }
{
    let mut list = Vec::with_capacity(alloc, entries.len())?;
    for entry in entries {
        list.push((entry.name.text, entry.value))?;
    }
    Ok(list)
}

/// What decides which enumeration this is.
pub(crate) fn key_of<'a>(alloc: Global, of: &EnumValues<'a>) -> Result<EnumKey<'a>, NoMemory>
    ensures { IfOk result (λ key. (name : List ℕ) → enum_of_key name key ≡ under name (Some of.now)) }
{
    let entries = entries_of(alloc, of.entries)?;
    Ok(EnumKey {
        place: of.name.place.0,
        entries,
    })
}

// The same entries again.
fn copied<'a>(alloc: Global, entries: &[(&'a [u8], u64)]) -> Result<Vec<(&'a [u8], u64)>, NoMemory>
    ensures { IfOk result (λ list. list.items ≡ entries.now) }
{
    let mut list = Vec::new(alloc);
    list.extend_from_slice(entries)?;
    Ok(list)
}

impl<'a> Distinct<'a> {
    ghost use Rattle.std.specs.Prelude.{◌≡◌, [], ℕ, List, IfOk, Some, map};
    ghost use Rattle.rdl_values.specs.Values.{EnumOf};
    ghost use Rattle.rdl_encodings.specs.Keyed.{AreDistinct, enum_of_key};
    ghost use Rattle.rdl_encodings.specs.Same.{number_in, shown, with_one};

    /// None yet.
    pub fn new(alloc: Global) -> Self
        ensures { AreDistinct result [] }
    {
        Distinct {
            numbers: BTreeMap::new(alloc),
            list: Vec::new(alloc),
        }
    }

    /// The number of the enumeration of a key, which is put in behind the others where it is new, with the number of a field.
    pub fn number(
        &mut self,
        alloc: Global,
        field: u32,
        name: &'a [u8],
        key: EnumKey<'a>,
    ) -> Result<u32, NoMemory>
        ensures { IfOk result (λ number. (ls : List (ℕ × EnumOf)) → AreDistinct self.old ls → AreDistinct self.new (with_one ls field (enum_of_key name.now key.entry)) × (number_in (with_one ls field (enum_of_key name.now key.entry)) (enum_of_key name.now key.entry) ≡ Some number)) }
    {
        if let Some(number) = self.numbers.get(&key).copied() {
            return Ok(number);
        }
        let Ok(number) = u32::try_from(self.list.len()) else {
            return Err(NoMemory);
        };
        let entries = copied(alloc, &key.entries)?;
        self.list.push(Encoding {
            name,
            place: key.place,
            field,
            entries,
        })?;
        self.numbers.insert(key, number)?;
        Ok(number)
    }

    /// All of them.
    pub fn into_list(self) -> Vec<Encoding<'a>>
        ensures { (ls : List (ℕ × EnumOf)) → AreDistinct self.entry ls → result.items ≡ map shown ls }
    {
        self.list
    }
}
