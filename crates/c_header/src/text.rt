//! The text of a header.

ghost use Rattle.std.specs.Prelude.{◌≡◌, ◌++◌, IfOk, OnOk, flat_map};
ghost use Rattle.rb_model.specs.Sound.{IsSound};
ghost use Rattle.c_header.specs.Header as spec;
ghost use Rattle.c_header.specs.Header.{first_lines, lines, part_comment, part_text, entry_text, word_comment};
ghost use Rattle.c_header.specs.Macros.{from_macros, part_macros, word_macros};

use crate::enumerations::push_enumerations;
use crate::lines::{
    push_count, push_counts, push_decimal, push_given, push_number, push_offset, push_strides,
};
use crate::macros::{part_name, part_naturals, word_name, word_naturals};
use crate::names::{first_bytes, prefix};
use crate::repeats::Repeats;
use encodings::Encodings;
use rb_base::NoMemory;
use rb_model::Block;
use std::alloc::Global;
use word_groups::{Entry, Part, entries_of, push_shown, resval};

fn push_part_comment(text: &mut Vec<u8>, part: &Part) -> Result<(), NoMemory>
    ensures { OnOk result (text.new.items ≡ text.old.items ++ part_comment part.now) }
{
    let end = u16::from(part.low) + u16::from(part.bits);
    text.extend_from_slice(b"/* ")?;
    text.extend_from_slice(&part.name.bytes)?;
    text.extend_from_slice(b" [")?;
    push_decimal(text, usize::from(end.saturating_sub(1)))?;
    text.push(b':')?;
    push_decimal(text, usize::from(part.low))?;
    text.extend_from_slice(b"] ")?;
    text.extend_from_slice(&part.access.bytes)?;
    text.extend_from_slice(b" */\n")?;
    Ok(())
}

fn push_from(text: &mut Vec<u8>, base: &[u8], part: &Part) -> Result<(), NoMemory>
    ensures { OnOk result (text.new.items ≡ text.old.items ++ lines (from_macros base.now part.now)) }
{
    if part.whole {
        return Ok(());
    }
    push_count(text, base, b"_FROM", u32::from(part.from))
}

fn push_part_macros(text: &mut Vec<u8>, base: &[u8], part: &Part) -> Result<(), NoMemory>
    ensures { OnOk result (text.new.items ≡ text.old.items ++ lines (part_macros base.now part.now)) }
{
    push_count(text, base, b"_SHIFT", u32::from(part.low))?;
    push_count(text, base, b"_BITS", u32::from(part.bits))?;
    push_number(text, base, b"_MASK", part.mask)?;
    push_from(text, base, part)?;
    push_given(text, base, b"_RESET", part.reset)
}

fn push_part(
    alloc: Global,
    text: &mut Vec<u8>,
    begin: &[u8],
    repeats: &Repeats,
    entry: &Entry,
    part: &Part,
) -> Result<(), NoMemory>
    ensures { OnOk result (text.new.items ≡ text.old.items ++ part_text begin.now repeats.now entry.now part.now) }
{
    let base = part_name(alloc, begin, repeats, entry, part)?;
    push_part_comment(text, part)?;
    push_part_macros(text, &base, part)
}

fn push_word_comment(alloc: Global, text: &mut Vec<u8>, entry: &Entry) -> Result<(), NoMemory>
    ensures { OnOk result (text.new.items ≡ text.old.items ++ word_comment entry.now) }
{
    text.extend_from_slice(b"\n/* ")?;
    push_shown(alloc, text, &entry.path.bytes, &entry.lengths.items)?;
    text.extend_from_slice(b" word ")?;
    push_decimal(text, usize::from(entry.number))?;
    text.extend_from_slice(b" */\n")?;
    Ok(())
}

fn push_word_macros(
    alloc: Global,
    text: &mut Vec<u8>,
    base: &[u8],
    entry: &Entry,
) -> Result<(), NoMemory>
    ensures { OnOk result (text.new.items ≡ text.old.items ++ lines (word_macros base.now entry.now)) }
{
    push_offset(text, base, entry.address, &entry.strides.items)?;
    push_counts(alloc, text, base, &entry.lengths.items)?;
    push_strides(alloc, text, base, &entry.strides.items)?;
    push_count(text, base, b"_BYTES", u32::from(entry.bytes))?;
    push_given(text, base, b"_RESVAL", resval(&entry.parts.items))
}

// Adds the macros of an entry, among those of whose words and parts the natural names are these.
fn push_entry(
    alloc: Global,
    text: &mut Vec<u8>,
    begin: &[u8],
    words: &Repeats,
    parts: &Repeats,
    entry: &Entry,
) -> Result<(), NoMemory>
    ensures { OnOk result (text.new.items ≡ text.old.items ++ entry_text begin.now words.now parts.now entry.now) }
{
    let base = word_name(alloc, begin, words, entry)?;
    push_word_comment(alloc, text, entry)?;
    push_word_macros(alloc, text, &base, entry)?;
    for part in &entry.parts.items {
        push_part(alloc, text, begin, parts, entry, part)?;
    }
    Ok(())
}

fn push_each(
    alloc: Global,
    text: &mut Vec<u8>,
    begin: &[u8],
    words: &Repeats,
    parts: &Repeats,
    entries: &[Entry],
) -> Result<(), NoMemory>
    ensures { OnOk result (text.new.items ≡ text.old.items ++ flat_map (entry_text begin.now words.now parts.now) entries.now) }
{
    for entry in entries {
        push_entry(alloc, text, begin, words, parts, entry)?;
    }
    Ok(())
}

fn push_entries(
    alloc: Global,
    text: &mut Vec<u8>,
    begin: &[u8],
    entries: &[Entry],
) -> Result<(), NoMemory>
    ensures { OnOk result (text.new.items ≡ text.old.items ++ spec.entry_texts begin.now entries.now) }
{
    let word_names = word_naturals(alloc, begin, entries)?;
    let part_names = part_naturals(alloc, begin, entries)?;
    let words = Repeats::of(alloc, &word_names)?;
    let parts = Repeats::of(alloc, &part_names)?;
    push_each(alloc, text, begin, &words, &parts, entries)
}

fn push_guard(text: &mut Vec<u8>, begin: &[u8]) -> Result<(), NoMemory>
    ensures { OnOk result (text.new.items ≡ text.old.items ++ spec.guard begin.now) }
{
    text.extend_from_slice(begin)?;
    text.extend_from_slice(b"_REGS_H")?;
    Ok(())
}

fn push_title(text: &mut Vec<u8>, top: &[u8]) -> Result<(), NoMemory>
    ensures { OnOk result (text.new.items ≡ text.old.items ++ spec.title top.now) }
{
    text.extend_from_slice(b"/* Registers of ")?;
    text.extend_from_slice(first_bytes(top))?;
    text.extend_from_slice(b" */\n")?;
    Ok(())
}

fn push_guard_lines(text: &mut Vec<u8>, begin: &[u8]) -> Result<(), NoMemory>
    ensures { OnOk result (text.new.items ≡ text.old.items ++ spec.guard_lines begin.now) }
{
    text.extend_from_slice(b"#ifndef ")?;
    push_guard(text, begin)?;
    text.extend_from_slice(b"\n#define ")?;
    push_guard(text, begin)?;
    text.extend_from_slice(b"\n\n")?;
    Ok(())
}

fn push_first_lines(text: &mut Vec<u8>, top: &[u8], begin: &[u8]) -> Result<(), NoMemory>
    ensures { OnOk result (text.new.items ≡ text.old.items ++ first_lines top.now begin.now) }
{
    push_title(text, top)?;
    push_guard_lines(text, begin)?;
    text.extend_from_slice(
        b"#ifdef __ASSEMBLER__\n#define UINT32_C(number) number\n#define UINT64_C(number) number\n#else\n#include <limits.h>\n#include <stdint.h>\n#if CHAR_BIT != 8\n#error \"offsets count bytes of 8 bits\"\n#endif\n#endif\n",
    )?;
    Ok(())
}

// About how many bytes the text of an entry takes behind a prefix so long.
fn entry_room(begin: usize, entry: &Entry) -> usize {
    let base = begin.saturating_add(entry.path.bytes.len());
    let mut room = base.saturating_mul(4).saturating_add(110);
    for part in &entry.parts.items {
        let name = base.saturating_add(part.name.bytes.len());
        room = room.saturating_add(name.saturating_mul(5).saturating_add(125));
    }
    room
}

// About how many bytes the text of entries takes, so that it need not be moved while it grows.
fn room_for(begin: usize, entries: &[Entry]) -> usize {
    let mut room: usize = 400;
    for entry in entries {
        room = room.saturating_add(entry_room(begin, entry));
    }
    room
}

/// The header of a sound block and of the enumerations that its fields are encoded by: of each word its offset, width and reset value, of each of
/// its fields shift, width, mask and reset value, and of each enumerator its value, as macros that C, C++ and the assembler take. The only error is
/// want of memory.
pub fn header(alloc: Global, block: &Block, encodings: &Encodings<'_>) -> Result<Vec<u8>, NoMemory>
    requires { IsSound block.now }
    ensures { IfOk result (λ r. r.items ≡ spec.header block.now encodings.now) }
{
    let entries = entries_of(alloc, block)?;
    let begin = prefix(alloc, &block.name.bytes)?;
    let mut text = Vec::with_capacity(alloc, room_for(begin.len(), &entries))?;
    push_first_lines(&mut text, &block.name.bytes, &begin)?;
    push_entries(alloc, &mut text, &begin, &entries)?;
    push_enumerations(alloc, &mut text, block, &begin, &encodings.list)?;
    text.extend_from_slice(b"\n#endif\n")?;
    Ok(text)
}
