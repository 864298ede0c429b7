//! The marks of places in the page. No two units have one: names have neither `:` nor `.`.

ghost use Rattle.std.specs.Prelude.{◌≡◌, ◌++◌, IfOk, OnOk, Some, codes, fold};
ghost use Rattle.manual_sections.specs.Sections.{numbered};
ghost use Rattle.manual_units.specs.Marks as spec;

use crate::lots::Lot;
use itoa::Buffer;
use manual_sections::is_shared;
use rb_base::{NoMemory, Text};
use rb_model::{Block, View};
use std::alloc::Global;
use word_groups::{Entry, Part, push_names};

fn push_word(text: &mut Vec<u8>, number: u8) -> Result<(), NoMemory>
    ensures { OnOk result (text.new.items ≡ text.old.items ++ numbered (codes ":") number) }
{
    if number != 0 {
        let mut buffer = Buffer::new();
        text.extend_from_slice(b":")?;
        text.extend_from_slice(buffer.format(number).as_bytes())?;
    }
    Ok(())
}

fn push_path(alloc: Global, text: &mut Vec<u8>, entry: &Entry) -> Result<(), NoMemory>
    ensures { OnOk result (text.new.items ≡ text.old.items ++ spec.marked_path entry.now) }
{
    if is_shared(entry) {
        push_names(alloc, text, &entry.path.bytes)?;
    } else {
        text.extend_from_slice(&entry.path.bytes)?;
    }
    Ok(())
}

/// The mark of an entry. The only error is want of memory.
pub(crate) fn mark(alloc: Global, entry: &Entry) -> Result<Text, NoMemory>
    ensures { IfOk result (λ r. r ≡ spec.mark entry.now) }
{
    let mut bytes = Vec::new(alloc);
    push_path(alloc, &mut bytes, entry)?;
    push_word(&mut bytes, entry.number)?;
    Ok(Text { bytes })
}

fn field_mark(alloc: Global, entry: &Entry, name: &[u8]) -> Result<Text, NoMemory>
    ensures { IfOk result (λ r. r ≡ spec.field_mark entry.now name.now) }
{
    let mut mark = mark(alloc, entry)?;
    mark.bytes.extend_from_slice(b".")?;
    mark.bytes.extend_from_slice(name)?;
    Ok(mark)
}

fn shown_as<'e>(whole: &'e Option<Entry>, entry: &'e Entry) -> &'e Entry
    ensures { result.now ≡ spec.shown_as whole.now entry.now }
{
    match whole {
        None => entry,
        Some(whole) => whole,
    }
}

// Sets the mark of a place, unless it has one.
fn set_mark(marks: &mut Vec<Text>, place: usize, mark: Text)
    ensures { marks.new.items ≡ spec.set_mark marks.old.items place mark }
{
    if place < marks.len() && marks[place].bytes.is_empty() {
        marks[place] = mark;
    }
}

// As many empty texts.
fn none_of(alloc: Global, count: usize) -> Result<Vec<Text>, NoMemory>
    ensures { IfOk result (λ r. r.items ≡ spec.none_of count) }
{
    let mut marks = Vec::new(alloc);
    for _ in 0..count {
        marks.push(Text {
            bytes: Vec::new(alloc),
        })?;
    }
    Ok(marks)
}

fn mark_field(
    alloc: Global,
    marks: &mut Vec<Text>,
    shown: &Entry,
    part: &Part,
    view: &View,
) -> Result<(), NoMemory>
    ensures { OnOk result (marks.new.items ≡ spec.mark_field shown.now marks.old.items part.now (Some view.now)) }
{
    if !view.alias {
        let mark = field_mark(alloc, shown, &part.name.bytes)?;
        set_mark(marks, view.field as usize, mark);
    }
    Ok(())
}

fn mark_part(
    alloc: Global,
    marks: &mut Vec<Text>,
    block: &Block,
    shown: &Entry,
    part: &Part,
) -> Result<(), NoMemory>
    ensures { OnOk result (marks.new.items ≡ spec.mark_part block.now shown.now marks.old.items part.now) }
{
    match block.views.items.get(part.view as usize) {
        None => Ok(()),
        Some(view) => mark_field(alloc, marks, shown, part, view),
    }
}

fn mark_parts(
    alloc: Global,
    marks: &mut Vec<Text>,
    block: &Block,
    shown: &Entry,
    parts: &[Part],
) -> Result<(), NoMemory>
    ensures { OnOk result (marks.new.items ≡ fold (spec.mark_part block.now shown.now) marks.old.items parts.now) }
{
    for part in parts {
        mark_part(alloc, marks, block, shown, part)?;
    }
    Ok(())
}

fn mark_fields(
    alloc: Global,
    marks: &mut Vec<Text>,
    block: &Block,
    whole: &Option<Entry>,
    entry: &Entry,
) -> Result<(), NoMemory>
    ensures { OnOk result (marks.new.items ≡ spec.mark_fields block.now whole.now marks.old.items entry.now) }
{
    let shown = shown_as(whole, entry);
    mark_parts(alloc, marks, block, shown, &entry.parts.items)
}

fn mark_lot_fields(
    alloc: Global,
    marks: &mut Vec<Text>,
    block: &Block,
    lot: &Lot,
) -> Result<(), NoMemory>
    ensures { OnOk result (marks.new.items ≡ spec.mark_lot_fields block.now marks.old.items lot.now) }
{
    for word in &lot.words.items {
        mark_fields(alloc, marks, block, &lot.whole, word)?;
    }
    Ok(())
}

/// The marks of the fields' places, by their numbers: an empty one where no word has bits of the field's own view. The only error is want of memory.
pub fn field_marks(alloc: Global, block: &Block, lots: &[Lot]) -> Result<Vec<Text>, NoMemory>
    ensures { IfOk result (λ r. r.items ≡ spec.field_marks block.now lots.now) }
{
    let mut marks = none_of(alloc, block.fields.items.len())?;
    for lot in lots {
        mark_lot_fields(alloc, &mut marks, block, lot)?;
    }
    Ok(marks)
}

fn mark_reg(
    alloc: Global,
    marks: &mut Vec<Text>,
    whole: &Option<Entry>,
    entry: &Entry,
) -> Result<(), NoMemory>
    ensures { OnOk result (marks.new.items ≡ spec.mark_reg whole.now marks.old.items entry.now) }
{
    let mark = mark(alloc, shown_as(whole, entry))?;
    set_mark(marks, entry.reg as usize, mark);
    Ok(())
}

fn mark_lot_regs(alloc: Global, marks: &mut Vec<Text>, lot: &Lot) -> Result<(), NoMemory>
    ensures { OnOk result (marks.new.items ≡ spec.mark_lot_regs marks.old.items lot.now) }
{
    for word in &lot.words.items {
        mark_reg(alloc, marks, &lot.whole, word)?;
    }
    Ok(())
}

/// The marks of the registers' places, by their numbers: an empty one where no word is the register's. The only error is want of memory.
pub fn reg_marks(alloc: Global, block: &Block, lots: &[Lot]) -> Result<Vec<Text>, NoMemory>
    ensures { IfOk result (λ r. r.items ≡ spec.reg_marks block.now lots.now) }
{
    let mut marks = none_of(alloc, block.regs.items.len())?;
    for lot in lots {
        mark_lot_regs(alloc, &mut marks, lot)?;
    }
    Ok(marks)
}
