//! Which elements of an array the page says the same of.

ghost use Rattle.std.specs.Prelude.{◌≡◌, [], IfOk, OnOk, option_copied, true};
ghost use Rattle.html_text.specs.Writing.{Writes, at};
ghost use Rattle.manual_sections.specs.Rows.{rows};
ghost use Rattle.manual_units.specs.Likeness as spec;

use crate::sheet::Sheet;
use block_effects::{Note, Notes};
use encodings::Encodings;
use html_text::{Pen, finish, new_pen};
use manual_sections::{Effects, all_effects, put_rows};
use manual_words::Sight;
use rb_base::{NoMemory, Text};
use rb_edge::Sink;
use rb_model::Block;
use std::alloc::Global;
use word_groups::{Entry, Part, names_and_indices};

fn same_text(a: Option<&[u8]>, b: Option<&[u8]>) -> bool
    ensures { result ≡ spec.same_text (option_copied a.entry) (option_copied b.entry) }
{
    match (a, b) {
        (None, None) => true,
        (Some(a), Some(b)) => a == b,
        _ => false,
    }
}

fn same_said(a: &Note<'_>, b: &Note<'_>) -> bool
    ensures { result ≡ spec.same_said a.now b.now }
{
    same_text(a.name, b.name) && same_text(a.desc, b.desc)
}

// Whether the source says the same of both.
fn same_note(notes: &[Note<'_>], a: u32, b: u32) -> bool
    ensures { result ≡ spec.same_note notes.now a b }
{
    let none = Note {
        name: None,
        desc: None,
    };
    let first = notes.get(a as usize).unwrap_or(&none);
    let second = notes.get(b as usize).unwrap_or(&none);
    same_said(first, second)
}

fn same_notes(views: &[Note<'_>], a: &[Part], b: &[Part]) -> bool
    ensures { result ≡ spec.same_notes views.now a.now b.now }
{
    let mut rest = a;
    let mut others = b;
    while let [part, more @ ..] = rest {
        let [other, behind @ ..] = others else {
            return false;
        };
        if !same_note(views, part.view, other.view) {
            return false;
        }
        rest = more;
        others = behind;
    }
    others.is_empty()
}

fn put_bare<K: Sink>(
    pen: &mut Pen,
    out: &mut K,
    block: &Block,
    encodings: &Encodings<'_>,
    own: &[Text],
    parts: &[Part],
    effects: &[Effects],
)
    ensures { Writes (at (K.told out.old) (K.faults out.old) pen.old) (at (K.told out.new) (K.faults out.new) pen.new) (rows block.now [] (record { block = block.now; own = own.now; named = true; fields = []; regs = []; encodings = encodings.now }) [] parts.now effects.now) }
{
    let sight = Sight {
        block,
        own,
        named: true,
        fields: &[],
        regs: &[],
        encodings,
    };
    put_rows(pen, out, block, &[], &sight, &[], parts, effects);
}

// Writes the fields of an entry as the page shows them, without marks and texts of the source.
fn put_entry<K: Sink>(
    alloc: Global,
    pen: &mut Pen,
    out: &mut K,
    block: &Block,
    encodings: &Encodings<'_>,
    entry: &Entry,
) -> Result<(), NoMemory>
    ensures { OnOk result (Writes (at (K.told out.old) (K.faults out.old) pen.old) (at (K.told out.new) (K.faults out.new) pen.new) (spec.bare_rows block.now encodings.now entry.now)) }
{
    let own = names_and_indices(alloc, &entry.path.bytes)?;
    let parts = &entry.parts.items;
    let effects = all_effects(alloc, block, parts)?;
    put_bare(pen, out, block, encodings, &own, parts, &effects);
    Ok(())
}

// The fields of an entry as the page shows them, by a pen whose page is empty.
fn bare_rows(
    alloc: Global,
    pen: &mut Pen,
    block: &Block,
    encodings: &Encodings<'_>,
    entry: &Entry,
) -> Result<Vec<u8>, NoMemory>
    requires { pen.old.page ≡ [] }
    ensures bytes { IfOk result (λ r. r.items ≡ spec.bare_rows block.now encodings.now entry.now) }
    ensures empty { OnOk result (pen.new.page ≡ []) }
{
    let mut sheet = Sheet::new(alloc);
    put_entry(alloc, pen, &mut sheet, block, encodings, entry)?;
    match finish(pen, &mut sheet) {
        Ok(()) => Ok(sheet.bytes),
        Err(_) => Err(NoMemory),
    }
}

fn noted_alike(notes: &Notes<'_>, first: &Entry, entry: &Entry) -> bool
    ensures { result ≡ spec.noted_alike notes.now first.now entry.now }
{
    same_note(&notes.regs, first.reg, entry.reg)
        && same_notes(&notes.views, &first.parts.items, &entry.parts.items)
}

// Whether the page says the same of an entry as of the first, whose fields it shows so.
fn is_like(
    alloc: Global,
    pen: &mut Pen,
    block: &Block,
    notes: &Notes<'_>,
    encodings: &Encodings<'_>,
    first: &Entry,
    shown: &[u8],
    entry: &Entry,
) -> Result<bool, NoMemory>
    requires page { pen.old.page ≡ [] }
    requires shown { shown.now ≡ spec.bare_rows block.now encodings.now first.now }
    ensures like { IfOk result (λ r. r ≡ spec.is_like block.now notes.now encodings.now first.now entry.now) }
    ensures page { OnOk result (pen.new.page ≡ []) }
{
    if !noted_alike(notes, first, entry) {
        return Ok(false);
    }
    let bytes = bare_rows(alloc, pen, block, encodings, entry)?;
    Ok(*shown == *bytes)
}

/// Whether the page says the same of all these words as of the first. The only error is want of memory.
pub(crate) fn are_like(
    alloc: Global,
    block: &Block,
    notes: &Notes<'_>,
    encodings: &Encodings<'_>,
    group: &[Entry],
) -> Result<bool, NoMemory>
    ensures { IfOk result (λ r. r ≡ spec.are_like block.now notes.now encodings.now group.now) }
{
    let [first, rest @ ..] = group else {
        return Ok(true);
    };
    let mut pen = new_pen();
    let shown = bare_rows(alloc, &mut pen, block, encodings, first)?;
    for entry in rest {
        if !is_like(
            alloc, &mut pen, block, notes, encodings, first, &shown, entry,
        )? {
            return Ok(false);
        }
    }
    Ok(true)
}
