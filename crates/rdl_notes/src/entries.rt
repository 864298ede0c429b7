//! The notes of the entries of enumerations.

ghost use Rattle.std.specs.Prelude.{◌≡◌, IfOk, find, flat_map, map, option_copied};
ghost use Rattle.rdl_tree.specs.declared.item.Source.{Source as AnySource};
ghost use Rattle.rdl_notes.specs.Entries as spec;
ghost use Rattle.rdl_notes.specs.Known.{AreKnown};

use block_effects::Note;
use encodings::{Encoding, Encodings};
use rb_base::NoMemory;
use rdl_tree::{Assigned, Entry, Expr, Item, Set, Source};
use std::alloc::Global;
use std::collections::BTreeMap;

/// The enumerations of a source by where their names stand.
#[derive(Drop)]
pub(crate) struct SourceEnums<'a> {
    by_place: BTreeMap<u32, &'a [Entry<'a>]>,
}

impl<'a> SourceEnums<'a> {
    ghost use Rattle.std.specs.Prelude.{◌≡◌, ◌∷◌, ◌++◌, [], ℕ, IfOk, List, OnOk, flat_map, option_map};
    ghost use Rattle.rdl_tree.specs.declared.item.Entry.{Entry as AnyEntry};
    ghost use Rattle.rdl_notes.specs.Entries as spec;
    ghost use Rattle.rdl_notes.specs.Known.{AreKnown, known_at};

    // None yet.
    fn new(alloc: Global) -> Self
        ensures { AreKnown [] result }
    {
        SourceEnums {
            by_place: BTreeMap::new(alloc),
        }
    }

    // Puts one in, where none stands at its place yet.
    fn add(&mut self, place: u32, entries: &'a [Entry<'a>]) -> Result<(), NoMemory>
        ensures { OnOk result ((es : List (ℕ × List AnyEntry)) → AreKnown es self.old → AreKnown (es ++ ((place, entries.now) ∷ [])) self.new) }
    {
        if !self.by_place.contains_key(&place) {
            self.by_place.insert(place, entries)?;
        }
        Ok(())
    }

    // Puts in those of an item.
    fn read(&mut self, item: &Item<'a>) -> Result<(), NoMemory>
        ensures { OnOk result ((es : List (ℕ × List AnyEntry)) → AreKnown es self.old → AreKnown (es ++ spec.enums_of item.now) self.new) }
    {
        match item {
            Item::EnumDef { name, entries } => self.add(name.place.0, entries),
            Item::Def(def) => {
                for inner in def.items {
                    self.read(inner)?;
                }
                Ok(())
            }
            _ => Ok(()),
        }
    }

    /// Those of all items. The only error is want of memory.
    pub(crate) fn of(alloc: Global, items: &'a [Item<'a>]) -> Result<Self, NoMemory>
        ensures { IfOk result (AreKnown (flat_map spec.enums_of items.now)) }
    {
        let mut enums = SourceEnums::new(alloc);
        for item in items {
            enums.read(item)?;
        }
        Ok(enums)
    }

    /// The entries of the one whose name stands at a place.
    pub(crate) fn at(&self, place: u32) -> Option<&'a [Entry<'a>]>
        ensures { option_map (λ es. es.now) result ≡ known_at self.now place }
    {
        self.by_place.get(&place).copied()
    }
}

// The bytes between the quotes of a string.
fn string_in<'a>(value: &Option<Assigned<'a>>) -> Option<&'a [u8]>
    ensures { option_copied result ≡ spec.string_in value.now }
{
    match value {
        Some(Assigned::Expr(Expr::Str(text, _))) => Some(text),
        _ => None,
    }
}

// The first assignment of a property.
fn set_of<'a>(property: &[u8], sets: &[Set<'a>]) -> Option<Set<'a>>
    ensures { result ≡ find (spec.is_of property.now) sets.now }
{
    sets.iter().copied().find(|set| set.prop.text == property)
}

// The string of the assignment of a property.
fn string_of<'a>(property: &[u8], sets: &[Set<'a>]) -> Option<&'a [u8]>
    ensures { option_copied result ≡ spec.string_of property.now sets.now }
{
    match set_of(property, sets) {
        Some(set) => string_in(&set.value),
        None => None,
    }
}

fn note_of<'a>(entry: &Entry<'a>) -> Note<'a>
    ensures { result ≡ spec.entry_said entry.now }
{
    let name = string_of(b"name", entry.sets);
    let desc = string_of(b"desc", entry.sets);
    Note { name, desc }
}

fn notes_of<'a>(alloc: Global, entries: &[Entry<'a>]) -> Result<Vec<Note<'a>>, NoMemory>
    ensures { IfOk result (λ list. list.items ≡ map spec.entry_said entries.now) }
{
    let mut list = Vec::new(alloc);
    for entry in entries {
        list.push(note_of(entry))?;
    }
    Ok(list)
}

// The notes of the entries of the enumeration whose name stands at a place.
fn notes_at<'a>(
    alloc: Global,
    enums: &SourceEnums<'a>,
    place: u32,
) -> Result<Vec<Note<'a>>, NoMemory>
    ensures { IfOk result (λ list. (s : AnySource) → AreKnown (flat_map spec.enums_of s.items.now) enums.now → list.items ≡ spec.entries_said s place) }
{
    match enums.at(place) {
        Some(entries) => notes_of(alloc, entries),
        None => Ok(Vec::new(alloc)),
    }
}

fn place_of(encoding: &Encoding<'_>) -> u32
    ensures { result ≡ encoding.now.place }
{
    encoding.place
}

// For each enumeration the notes of its entries.
fn notes_of_each<'a>(
    alloc: Global,
    enums: &SourceEnums<'a>,
    encodings: &[Encoding<'_>],
) -> Result<Vec<Vec<Note<'a>>>, NoMemory>
    ensures { IfOk result (λ list. (s : AnySource) → AreKnown (flat_map spec.enums_of s.items.now) enums.now → map (λ v. v.items) list.items ≡ map (λ e. spec.entries_said s e.place) encodings.now) }
{
    let mut list = Vec::new(alloc);
    for encoding in encodings {
        let notes = notes_at(alloc, enums, place_of(encoding))?;
        list.push(notes)?;
    }
    Ok(list)
}

/// For each enumeration of a block the notes of its entries. The only error is want of memory.
pub(crate) fn entry_notes<'a>(
    alloc: Global,
    source: &'a Source<'a>,
    encodings: &Encodings<'_>,
) -> Result<Vec<Vec<Note<'a>>>, NoMemory>
    ensures { IfOk result (λ list. map (λ v. v.items) list.items ≡ map (λ e. spec.entries_said source.now e.place) encodings.now.list) }
{
    if encodings.list.is_empty() {
        return Ok(Vec::new(alloc));
    }
    let enums = SourceEnums::of(alloc, source.items)?;
    let list = notes_of_each(alloc, &enums, &encodings.list)?;
    Ok(list)
}
