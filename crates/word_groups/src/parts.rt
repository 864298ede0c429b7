//! The bits of a word that are bits of fields.

ghost use Rattle.std.specs.Prelude.{◌≡◌, ◌<◌, ◌≤◌, ◌+◌, ◌-◌, ◌*◌, ◌/◌, ◌%◌, ◌^◌, ◌++◌, ◌∷◌, [], IfOk, OnOk, Some, option_copied, slice_get};
ghost use Rattle.rb_model.specs.SoundField as sound;
ghost use Rattle.word_groups.specs.Parts as spec;
ghost use Rattle.word_groups.specs.Parts.{SlotFits, SlotsFit, part, part_of, pulse_word, resval, with_field};

use crate::paths::last_name;
use rb_base::{NoMemory, Text, copy_of};
use rb_model::{Block, Class, Field, OnRead, OnWrite, Slot, View, Word};
use std::alloc::Global;
use std::marker::Model;

/// Bits of a word that are bits of a field: `bits` of them, in the word from `low` on, in the field from `from` on.
#[derive(Drop)]
pub struct Part {
    /// The number of its view in [`Block::views`](rb_model::Block::views).
    pub view: u32,
    /// The field's name.
    pub name: Text,
    /// The lowest of the bits, counted in the word.
    pub low: u8,
    /// The same bit, counted in the field.
    pub from: u8,
    /// How many bits.
    pub bits: u8,
    /// Their ones, as bits of the word.
    pub mask: u64,
    /// Whether these are all bits of the field.
    pub whole: bool,
    /// Whether software reads them.
    pub reads: bool,
    /// How software reads and writes them, in the source's words.
    pub access: Text,
    /// Their value under an asserted reset, if the field keeps one.
    pub reset: Option<u64>,
    /// What they add to what a read gives under all resets, if that is known.
    pub shows: Option<u64>,
}

/// The parts of a word.
#[derive(Drop)]
pub struct Parts {
    pub items: Vec<Part>,
}

impl Model for Parts {
    ghost use Rattle.std.specs.Prelude.{List};
    ghost use Rattle.word_groups.specs.declared.parts.Part.{Part};

    ghost Value = { List Part };

    ghost view = { λ all. all.items.items };
}

fn sw_word(view: &View) -> &'static [u8]
    ensures { result.now ≡ spec.sw_word view.now }
{
    match (view.reads, view.writes, view.once) {
        (true, true, true) => b"rw1",
        (true, true, false) => b"rw",
        (true, false, _) => b"r",
        (false, true, true) => b"w1",
        (false, true, false) => b"w",
        (false, false, _) => b"na",
    }
}

fn write_word(effect: OnWrite) -> &'static [u8]
    ensures { result.now ≡ spec.write_word effect }
{
    match effect {
        OnWrite::Off => b"",
        OnWrite::WoSet => b" woset",
        OnWrite::WoClr => b" woclr",
        OnWrite::WoT => b" wot",
        OnWrite::WzS => b" wzs",
        OnWrite::WzC => b" wzc",
        OnWrite::WzT => b" wzt",
        OnWrite::WClr => b" wclr",
        OnWrite::WSet => b" wset",
    }
}

fn read_word(effect: OnRead) -> &'static [u8]
    ensures { result.now ≡ spec.read_word effect }
{
    match effect {
        OnRead::Off => b"",
        OnRead::RClr => b" rclr",
        OnRead::RSet => b" rset",
    }
}

fn pulse_word(pulse: bool) -> &'static [u8]
    ensures { result.now ≡ spec.pulse_word pulse }
{
    if pulse { b" singlepulse" } else { b"" }
}

fn access(alloc: Global, view: &View, field: &Field) -> Result<Text, NoMemory>
    ensures { IfOk result (λ r. r ≡ spec.access view.now field.now) }
{
    let mut bytes = Vec::from_slice(alloc, sw_word(view))?;
    bytes.extend_from_slice(write_word(view.on_write))?;
    bytes.extend_from_slice(read_word(view.on_read))?;
    bytes.extend_from_slice(pulse_word(field.pulse))?;
    Ok(Text { bytes })
}

fn is_wire(class: Class) -> bool
    ensures { result ≡ sound.is_wire class }
{
    match class {
        Class::Wire => true,
        Class::Storage | Class::Constant => false,
    }
}

// The bits of a number that a slot shows.
fn shown_bits(number: u64, slot: &Slot) -> u64
    requires some_bit { 0 < slot.now.bits }
    requires in_word { slot.now.low + slot.now.bits ≤ 32 }
    requires in_field { slot.now.from + slot.now.bits ≤ 64 }
    ensures { result ≡ number / 2 ^ slot.now.from % 2 ^ slot.now.bits }
{
    (number >> slot.from) & ((1 << slot.bits) - 1)
}

fn part_reset(slot: &Slot, field: &Field) -> Option<u64>
    requires some_bit { 0 < slot.now.bits }
    requires in_word { slot.now.low + slot.now.bits ≤ 32 }
    requires in_field { slot.now.from + slot.now.bits ≤ 64 }
    ensures { result ≡ spec.part_reset slot.now field.now }
{
    if is_wire(field.class) {
        return None;
    }
    match field.reset {
        None => None,
        Some(reset) => Some(shown_bits(reset, slot)),
    }
}

fn shows(slot: &Slot, view: &View, field: &Field) -> Option<u64>
    requires some_bit { 0 < slot.now.bits }
    requires in_word { slot.now.low + slot.now.bits ≤ 32 }
    requires in_field { slot.now.from + slot.now.bits ≤ 64 }
    ensures { result ≡ spec.shows slot.now view.now field.now }
{
    if !view.reads {
        return Some(0);
    }
    match part_reset(slot, field) {
        Some(bits) => Some(bits << slot.low),
        None => None,
    }
}

fn mask(slot: &Slot) -> u64
    requires some_bit { 0 < slot.now.bits }
    requires in_word { slot.now.low + slot.now.bits ≤ 32 }
    ensures { result ≡ (2 ^ slot.now.bits - 1) * 2 ^ slot.now.low }
{
    ((1 << slot.bits) - 1) << slot.low
}

fn part_in(alloc: Global, slot: &Slot, view: &View, field: &Field) -> Result<Part, NoMemory>
    requires some_bit { 0 < slot.now.bits }
    requires in_word { slot.now.low + slot.now.bits ≤ 32 }
    requires in_field { slot.now.from + slot.now.bits ≤ 64 }
    ensures { IfOk result (λ r. r ≡ part slot.now view.now field.now) }
{
    Ok(Part {
        view: slot.view,
        name: last_name(alloc, &view.path.bytes)?,
        low: slot.low,
        from: slot.from,
        bits: slot.bits,
        mask: mask(slot),
        whole: slot.from == 0 && slot.bits == field.width,
        reads: view.reads,
        access: access(alloc, view, field)?,
        reset: part_reset(slot, field),
        shows: shows(slot, view, field),
    })
}

// Adds the part of a slot of this view.
fn push_viewed(
    alloc: Global,
    into: &mut Vec<Part>,
    block: &Block,
    slot: &Slot,
    view: &View,
) -> Result<(), NoMemory>
    requires fits { SlotFits block.now slot.now }
    requires view { slice_get block.now.views slot.now.view ≡ Some view.now }
    ensures { OnOk result (into.new.items ≡ into.old.items ++ part_of block.now slot.now) }
{
    match block.fields.items.get(view.field as usize) {
        None => Ok(()),
        Some(field) => {
            into.push(part_in(alloc, slot, view, field)?)?;
            Ok(())
        }
    }
}

// Adds the part of a slot.
fn push_part(
    alloc: Global,
    into: &mut Vec<Part>,
    block: &Block,
    slot: &Slot,
) -> Result<(), NoMemory>
    requires { SlotFits block.now slot.now }
    ensures { OnOk result (into.new.items ≡ into.old.items ++ part_of block.now slot.now) }
{
    match block.views.items.get(slot.view as usize) {
        None => Ok(()),
        Some(view) => push_viewed(alloc, into, block, slot, view),
    }
}

/// The parts of a word, in the order of its slots. The only error is want of memory.
pub(crate) fn parts_of(alloc: Global, block: &Block, word: &Word) -> Result<Parts, NoMemory>
    requires { SlotsFit block.now word.now.slots }
    ensures { IfOk result (λ r. r ≡ spec.parts block.now word.now) }
{
    let mut items = Vec::new(alloc);
    for slot in &word.slots.items {
        push_part(alloc, &mut items, block, slot)?;
    }
    Ok(Parts { items })
}

/// A part of its own, the same as this. The only error is want of memory.
pub fn copy_of_part(alloc: Global, part: &Part) -> Result<Part, NoMemory>
    ensures { IfOk result (λ r. r ≡ part.now) }
{
    Ok(Part {
        view: part.view,
        name: copy_of(alloc, &part.name)?,
        low: part.low,
        from: part.from,
        bits: part.bits,
        mask: part.mask,
        whole: part.whole,
        reads: part.reads,
        access: copy_of(alloc, &part.access)?,
        reset: part.reset,
        shows: part.shows,
    })
}

/// Parts of their own, the same as these. The only error is want of memory.
pub(crate) fn copy_of_parts(alloc: Global, parts: &Parts) -> Result<Parts, NoMemory>
    ensures { IfOk result (λ r. r ≡ parts.now) }
{
    let mut items = Vec::new(alloc);
    for part in &parts.items {
        items.push(copy_of_part(alloc, part)?)?;
    }
    Ok(Parts { items })
}

/// What a read gives where each field has its reset value, if that is known.
pub fn resval(parts: &[Part]) -> Option<u64>
    ensures { result ≡ spec.resval parts.now }
{
    let mut reads = false;
    let mut value = 0;
    for part in parts {
        reads = reads || part.reads;
        value |= part.shows?;
    }
    if reads { Some(value) } else { None }
}

fn is_same(a: Option<u64>, b: Option<u64>) -> bool
    ensures { result ≡ spec.same_reset a b }
{
    match (a, b) {
        (None, None) => true,
        (Some(a), Some(b)) => a == b,
        _ => false,
    }
}

fn have_like_bits(a: &Part, b: &Part) -> bool
    ensures { result ≡ spec.have_like_bits a.now b.now }
{
    a.low == b.low && a.from == b.from && a.bits == b.bits && a.mask == b.mask
}

fn have_like_access(a: &Part, b: &Part) -> bool
    ensures { result ≡ spec.have_like_access a.now b.now }
{
    a.whole == b.whole
        && a.reads == b.reads
        && is_same(a.reset, b.reset)
        && is_same(a.shows, b.shows)
}

fn have_like_names(a: &Part, b: &Part) -> bool
    ensures { result ≡ spec.have_like_names a.now b.now }
{
    a.name.bytes == b.name.bytes && a.access.bytes == b.access.bytes
}

fn is_like(a: &Part, b: &Part) -> bool
    ensures { result ≡ spec.is_like a.now b.now }
{
    have_like_bits(a, b) && have_like_access(a, b) && have_like_names(a, b)
}

/// Whether software can't tell these parts apart.
pub(crate) fn are_like(a: &[Part], b: &[Part]) -> bool
    ensures { result ≡ spec.are_like a.now b.now }
{
    let mut rest = a;
    let mut others = b;
    while let [part, more @ ..] = rest {
        let [other, behind @ ..] = others else {
            return false;
        };
        if !is_like(part, other) {
            return false;
        }
        rest = more;
        others = behind;
    }
    others.is_empty()
}
