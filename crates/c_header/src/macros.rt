//! What the macros of entries and parts are named after.

ghost use Rattle.std.specs.Prelude.{◌≡◌, ◌==◌, ◌++◌, IfOk, [], OnOk, cond, decimal};
ghost use Rattle.c_header.specs.Macros as macros;
ghost use Rattle.c_header.specs.Macros.{part_base, part_path, entry_path, word_base, word_path};
ghost use Rattle.c_header.specs.Names as names;
ghost use Rattle.c_header.specs.Names.{name_among};

use crate::names::{exact, natural, push_spelled};
use crate::repeats::Repeats;
use itoa::Buffer;
use rb_base::{NoMemory, Text};
use std::alloc::Global;
use word_groups::{Entry, Part, push_names};

/// Whether an entry stands for all elements of an array.
pub(crate) fn stands_for_array(entry: &Entry) -> bool
    ensures { result ≡ macros.stands_for_array entry.now }
{
    !entry.strides.items.is_empty()
}

fn path_of_entry(alloc: Global, entry: &Entry) -> Result<Vec<u8>, NoMemory>
    ensures { IfOk result (λ r. r.items ≡ entry_path entry.now) }
{
    let mut path = Vec::new(alloc);
    if stands_for_array(entry) {
        push_names(alloc, &mut path, &entry.path.bytes)?;
    } else {
        path.extend_from_slice(&entry.path.bytes)?;
    }
    Ok(path)
}

// Adds the number of a word that isn't its register's first, behind a byte and `w`.
fn push_word_number(text: &mut Vec<u8>, gap: &[u8], number: u8) -> Result<(), NoMemory>
    ensures { OnOk result (text.new.items ≡ text.old.items ++ cond (number == 0) [] (gap.now ++ decimal number)) }
{
    if number != 0 {
        let mut buffer = Buffer::new();
        text.extend_from_slice(gap)?;
        text.extend_from_slice(buffer.format(number).as_bytes())?;
    }
    Ok(())
}

fn path_of_word(alloc: Global, entry: &Entry) -> Result<Vec<u8>, NoMemory>
    ensures { IfOk result (λ r. r.items ≡ word_path entry.now) }
{
    let mut path = path_of_entry(alloc, entry)?;
    push_word_number(&mut path, b"$w", entry.number)?;
    Ok(path)
}

fn path_of_part(alloc: Global, entry: &Entry, part: &Part) -> Result<Vec<u8>, NoMemory>
    ensures { IfOk result (λ r. r.items ≡ part_path entry.now part.now) }
{
    let mut path = path_of_word(alloc, entry)?;
    path.push(b'$')?;
    path.extend_from_slice(&part.name.bytes)?;
    Ok(path)
}

fn natural_of_word(alloc: Global, begin: &[u8], entry: &Entry) -> Result<Vec<u8>, NoMemory>
    ensures { IfOk result (λ r. r.items ≡ names.natural begin.now (word_path entry.now)) }
{
    natural(alloc, begin, &path_of_word(alloc, entry)?)
}

fn natural_of_part(
    alloc: Global,
    begin: &[u8],
    entry: &Entry,
    part: &Part,
) -> Result<Vec<u8>, NoMemory>
    ensures { IfOk result (λ r. r.items ≡ names.natural begin.now (part_path entry.now part.now)) }
{
    natural(alloc, begin, &path_of_part(alloc, entry, part)?)
}

/// The natural names of words. The only error is want of memory.
pub(crate) fn word_naturals(
    alloc: Global,
    begin: &[u8],
    entries: &[Entry],
) -> Result<Vec<Text>, NoMemory>
    ensures { IfOk result (λ r. r.items ≡ macros.word_naturals begin.now entries.now) }
{
    let mut names = Vec::new(alloc);
    for entry in entries {
        let bytes = natural_of_word(alloc, begin, entry)?;
        names.push(Text { bytes })?;
    }
    Ok(names)
}

fn push_naturals(
    alloc: Global,
    into: &mut Vec<Text>,
    begin: &[u8],
    entry: &Entry,
) -> Result<(), NoMemory>
    ensures { OnOk result (into.new.items ≡ into.old.items ++ macros.entry_naturals begin.now entry.now) }
{
    for part in &entry.parts.items {
        let bytes = natural_of_part(alloc, begin, entry, part)?;
        into.push(Text { bytes })?;
    }
    Ok(())
}

/// The natural names of all parts. The only error is want of memory.
pub(crate) fn part_naturals(
    alloc: Global,
    begin: &[u8],
    entries: &[Entry],
) -> Result<Vec<Text>, NoMemory>
    ensures { IfOk result (λ r. r.items ≡ macros.part_naturals begin.now entries.now) }
{
    let mut names = Vec::new(alloc);
    for entry in entries {
        push_naturals(alloc, &mut names, begin, entry)?;
    }
    Ok(names)
}

fn array_mark(entry: &Entry) -> u8
    ensures { result ≡ macros.array_mark entry.now }
{
    if stands_for_array(entry) { b'a' } else { b'x' }
}

fn word_exact(alloc: Global, begin: &[u8], entry: &Entry) -> Result<Vec<u8>, NoMemory>
    ensures { IfOk result (λ r. r.items ≡ macros.word_exact begin.now entry.now) }
{
    let path = path_of_entry(alloc, entry)?;
    let mut name = exact(alloc, begin, array_mark(entry), &path)?;
    push_word_number(&mut name, b"_w", entry.number)?;
    Ok(name)
}

fn part_exact(alloc: Global, begin: &[u8], entry: &Entry, part: &Part) -> Result<Vec<u8>, NoMemory>
    ensures { IfOk result (λ r. r.items ≡ (part_base begin.now entry.now part.now).exact) }
{
    let mut name = word_exact(alloc, begin, entry)?;
    name.extend_from_slice(b"_1")?;
    push_spelled(&mut name, &part.name.bytes)?;
    Ok(name)
}

/// The name of a word among those of all words. The only error is want of memory.
pub(crate) fn word_name(
    alloc: Global,
    begin: &[u8],
    repeats: &Repeats,
    entry: &Entry,
) -> Result<Vec<u8>, NoMemory>
    ensures { IfOk result (λ r. r.items ≡ name_among repeats.now (word_base begin.now entry.now)) }
{
    let name = natural_of_word(alloc, begin, entry)?;
    if repeats.contains(&name) {
        return word_exact(alloc, begin, entry);
    }
    Ok(name)
}

/// The name of a part among those of all parts. The only error is want of memory.
pub(crate) fn part_name(
    alloc: Global,
    begin: &[u8],
    repeats: &Repeats,
    entry: &Entry,
    part: &Part,
) -> Result<Vec<u8>, NoMemory>
    ensures { IfOk result (λ r. r.items ≡ name_among repeats.now (part_base begin.now entry.now part.now)) }
{
    let name = natural_of_part(alloc, begin, entry, part)?;
    if repeats.contains(&name) {
        return part_exact(alloc, begin, entry, part);
    }
    Ok(name)
}
