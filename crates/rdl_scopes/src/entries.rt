//! The entries of an enumeration with their values (SystemRDL 2.0, clause 6).

ghost use Rattle.std.specs.Prelude.{◌≡◌, map, IfOk, OnOk};
ghost use Rattle.rdl_values.specs.Enums as enums;
ghost use Rattle.rdl_values.specs.Enums.{judged};
ghost use Rattle.rdl_values.specs.Phase3.{of_entries};
ghost use Rattle.rdl_values.specs.Values.{Around};
ghost use Rattle.rdl_failures.specs.Noted.{IsNoted, with_all};
ghost use Rattle.rdl_failures.specs.Shown.{IsShown};
ghost use Rattle.rdl_values.specs.Seen.{listed_enum};
ghost use Rattle.rdl_scopes.specs.Entries.{IsTableOf, IsValued, clash_fails, judged_in, listed_as, pair};

use bumpalo::Bump;
use rb_base::NoMemory;
use rdl_base::{Fault, Rule};
use rdl_failures::{Failures, number_seen};
use rdl_tree::{Entry, EntryValue, EnumValues, Name};
use rdl_values::{Chain, EnumTable, Firsts};
use std::alloc::Global;
use std::collections::BTreeSet;
use std::rc::Rc;

/// An enumeration with the numbers of its entries: by their names, and in order. Several bodies may have it.
#[derive(Drop)]
pub(crate) struct ValuedEnum<'a> {
    pub table: Rc<EnumTable<'a>>,
    pub values: EnumValues<'a>,
}

impl ValuedEnum<'_> {
    ghost use Rattle.std.specs.Prelude.{◌≡◌, IfOk};

    /// The same once more.
    pub fn again(&self) -> Result<Self, NoMemory>
        ensures table { IfOk result (λ r. r.table.value ≡ self.now.table.value) }
        ensures values { IfOk result (λ r. r.values ≡ self.now.values) }
    {
        Ok(ValuedEnum {
            table: self.table.clone()?,
            values: self.values,
        })
    }
}

/// The entries of an enumeration up to the first whose value fails, and its failure.
#[derive(Drop)]
pub(crate) struct Judgement<'a> {
    pub entries: Vec<EntryValue<'a>>,
    pub failure: Option<Fault>,
}

// A number that is not written: one more than that before, or 0 at the first.
fn counted(name: &Name<'_>, before: Option<u64>) -> Result<u64, Fault>
    ensures { result ≡ enums.counted name.now before }
{
    let Some(number) = before else {
        return Ok(0);
    };
    match number.checked_add(1) {
        Some(next) => Ok(next),
        None => Err(Fault {
            place: name.place,
            rule: Rule::V3,
        }),
    }
}

// The number of an entry behind one of this number, or its first failure.
fn entry_number<'a>(
    entry: &Entry<'a>,
    before: Option<u64>,
    visible: &Chain<'_, '_, '_, 'a>,
) -> Result<u64, Fault>
    ensures { (around : Around) → IsShown visible.now around → result ≡ enums.entry_number around before entry.now }
{
    match &entry.value {
        Some(value) => number_seen(value, visible),
        None => counted(&entry.name, before),
    }
}

/// The entries with their numbers, in all bodies that are shown.
pub(crate) fn judge_entries<'a>(
    alloc: Global,
    entries: &[Entry<'a>],
    visible: &Chain<'_, '_, '_, 'a>,
) -> Result<Judgement<'a>, NoMemory>
    ensures { IfOk result (λ r. (around : Around) → IsShown visible.now around → judged around entries.now ≡ judged_in r) }
{
    let mut valued = Vec::new(alloc);
    let mut before = None;
    for entry in entries {
        match entry_number(entry, before, visible) {
            Ok(number) => {
                valued.push(EntryValue {
                    name: entry.name,
                    value: number,
                })?;
                before = Some(number);
            }
            Err(fault) => {
                return Ok(Judgement {
                    entries: valued,
                    failure: Some(fault),
                });
            }
        }
    }
    Ok(Judgement {
        entries: valued,
        failure: None,
    })
}

// Puts in E14 at each entry of which one before has the name or the number.
fn note_clashes(
    alloc: Global,
    entries: &[EntryValue<'_>],
    failures: &mut Failures,
) -> Result<bool, NoMemory>
    ensures { IfOk result (λ clean. IsNoted (clash_fails (map pair entries.now)) clean failures.old failures.new) }
{
    let mut names = Firsts::new(alloc);
    let mut numbers: BTreeSet<u64> = BTreeSet::new(alloc);
    let mut clean = true;
    for (at, entry) in entries.iter().enumerate() {
        let again = names.put(entry.name.text, at)?;
        let fresh = numbers.insert(entry.value)?;
        clean &= failures.note(again | !fresh, Rule::E14, entry.name.place)?;
    }
    Ok(clean)
}

// An enumeration of these entries, of two of one name the first.
fn enum_table<'a>(
    alloc: Global,
    name: Name<'a>,
    entries: &[EntryValue<'a>],
) -> Result<EnumTable<'a>, NoMemory>
    ensures { IfOk result (IsTableOf name.entry (map pair entries.now)) }
{
    let mut table = EnumTable::new(alloc, name);
    for entry in entries {
        table.add(entry.name.text, entry.value)?;
    }
    Ok(table)
}

// An enumeration of these entries in the arena.
fn values_in<'a>(
    arena: &'a Bump,
    name: Name<'a>,
    entries: &[EntryValue<'a>],
) -> Result<EnumValues<'a>, NoMemory>
    ensures { IfOk result (λ r. listed_enum r ≡ listed_as name.entry (map pair entries.now)) }
{
    let entries = arena.try_alloc_slice_copy(entries)?;
    Ok(EnumValues { name, entries })
}

impl<'a> Judgement<'a> {
    /// Puts in the failure of the first entry that has no value, and E14 at each of which one before has the name or the number.
    pub fn note(&self, alloc: Global, failures: &mut Failures) -> Result<(), NoMemory>
        ensures { OnOk result (failures.new ≡ with_all (of_entries (judged_in self.now)) failures.old) }
    {
        if let Some(fault) = self.failure {
            failures.add(fault)?;
        }
        note_clashes(alloc, &self.entries, failures)?;
        Ok(())
    }

    /// The enumeration of this name with the entries.
    pub fn valued(
        &self,
        alloc: Global,
        arena: &'a Bump,
        name: Name<'a>,
    ) -> Result<ValuedEnum<'a>, NoMemory>
        ensures { IfOk result (IsValued name.entry (judged_in self.now).entries) }
    {
        let table = enum_table(alloc, name, &self.entries)?;
        let table = Rc::new(alloc, table)?;
        let values = values_in(arena, name, &self.entries)?;
        Ok(ValuedEnum { table, values })
    }
}
