//! The section of enumerations.

ghost use Rattle.std.specs.Prelude.{◌≡◌, ◌<◌, [], Some, flat_map, get_or, length, map, nat_lt, slice_get};
ghost use Rattle.std.specs.List.{enumerate_from, list_any};
ghost use Rattle.block_effects.specs.Notes.{is_said};
ghost use Rattle.html_manual.specs.Enumerations as spec;
ghost use Rattle.manual_sections.specs.Rows.{said_at};
ghost use Rattle.html_text.specs.Tags as tags;
ghost use Rattle.html_text.specs.Writing.{Writes, at};

use crate::signals::put_texts;
use block_effects::Note;
use encodings::Encoding;
use html_text::{Pen, put, put_hex, put_place, put_three};
use manual_words::{Sight, put_field_at};
use rb_edge::Sink;

fn put_value<K: Sink>(pen: &mut Pen, out: &mut K, value: u64)
    ensures { Writes (at (K.told out.old) (K.faults out.old) pen.old) (at (K.told out.new) (K.faults out.new) pen.new) (spec.value_cell value) }
{
    put(pen, out, b"<tr><td class=\"n\">");
    put_hex(pen, out, value);
    put(pen, out, b"</td><td class=\"f\">");
}

fn put_code<K: Sink>(pen: &mut Pen, out: &mut K, name: &[u8])
    ensures { Writes (at (K.told out.old) (K.faults out.old) pen.old) (at (K.told out.new) (K.faults out.new) pen.new) (tags.code name.now) }
{
    put_three(pen, out, b"<code>", name, b"</code>");
}

// Whether something is said of one of some entries.
fn are_said(notes: &[Note<'_>]) -> bool
    ensures { result ≡ list_any is_said notes.now }
{
    notes.iter().any(|note| note.says())
}

#[tactic(auto, using(html_text::proofs::Wrote::nothing))]
fn put_meaning<K: Sink>(pen: &mut Pen, out: &mut K, told: bool, notes: &[Note<'_>], number: usize)
    ensures { Writes (at (K.told out.old) (K.faults out.old) pen.old) (at (K.told out.new) (K.faults out.new) pen.new) (spec.text_cell told (said_at notes.now number)) }
{
    if told {
        put(pen, out, b"</td><td class=\"m\">");
        put_texts(pen, out, notes, number);
    }
}

fn put_entry<K: Sink>(
    pen: &mut Pen,
    out: &mut K,
    told: bool,
    notes: &[Note<'_>],
    number: usize,
    name: &[u8],
    value: u64,
)
    ensures { Writes (at (K.told out.old) (K.faults out.old) pen.old) (at (K.told out.new) (K.faults out.new) pen.new) (spec.entry_row told notes.now (number, (name.now, value))) }
{
    put_value(pen, out, value);
    put_code(pen, out, name);
    put_meaning(pen, out, told, notes, number);
    put(pen, out, b"</td></tr>\n");
}

// The name and the value of an entry by its number.
fn entry_at<'e>(encoding: &Encoding<'e>, at: usize) -> (&'e [u8], u64)
    requires { at < length encoding.now.entries }
    ensures { slice_get encoding.now.entries at ≡ Some (result.0.now, result.1) }
{
    encoding.entries[at]
}

fn count_of(encoding: &Encoding<'_>) -> usize
    ensures { result ≡ length encoding.now.entries }
{
    encoding.entries.len()
}

fn put_entries<K: Sink>(
    pen: &mut Pen,
    out: &mut K,
    told: bool,
    notes: &[Note<'_>],
    encoding: &Encoding<'_>,
)
    ensures { Writes (at (K.told out.old) (K.faults out.old) pen.old) (at (K.told out.new) (K.faults out.new) pen.new) (flat_map (spec.entry_row told notes.now) (enumerate_from 0 encoding.now.entries)) }
{
    for at in 0..count_of(encoding) {
        let (name, value) = entry_at(encoding, at);
        put_entry(pen, out, told, notes, at, name, value);
    }
}

fn meaning_head(told: bool) -> &'static [u8]
    ensures { result.now ≡ spec.meaning_head told }
{
    if told {
        b"<th scope=\"col\">Meaning</th>"
    } else {
        b""
    }
}

fn put_values_head<K: Sink>(pen: &mut Pen, out: &mut K, told: bool)
    ensures { Writes (at (K.told out.old) (K.faults out.old) pen.old) (at (K.told out.new) (K.faults out.new) pen.new) (spec.values_head told) }
{
    put(
        pen,
        out,
        b"<div class=\"wide\">\n<table><caption>Values</caption>\n<tr><th scope=\"col\">Value</th><th scope=\"col\">Entry</th>",
    );
    put(pen, out, meaning_head(told));
    put(pen, out, b"</tr>\n");
}

fn put_table<K: Sink>(
    pen: &mut Pen,
    out: &mut K,
    told: bool,
    notes: &[Note<'_>],
    encoding: &Encoding<'_>,
)
    ensures { Writes (at (K.told out.old) (K.faults out.old) pen.old) (at (K.told out.new) (K.faults out.new) pen.new) (spec.told_table told notes.now encoding.now.entries) }
{
    put_values_head(pen, out, told);
    put_entries(pen, out, told, notes, encoding);
    put(pen, out, b"</table>\n</div>\n");
}

fn put_values<K: Sink>(pen: &mut Pen, out: &mut K, notes: &[Note<'_>], encoding: &Encoding<'_>)
    ensures { Writes (at (K.told out.old) (K.faults out.old) pen.old) (at (K.told out.new) (K.faults out.new) pen.new) (spec.values_table notes.now encoding.now.entries) }
{
    put_table(pen, out, are_said(notes), notes, encoding);
}

fn put_heading<K: Sink>(pen: &mut Pen, out: &mut K, number: usize, name: &[u8])
    ensures { Writes (at (K.told out.old) (K.faults out.old) pen.old) (at (K.told out.new) (K.faults out.new) pen.new) (spec.heading number name.now) }
{
    put(pen, out, b"<section>\n<h3 id=\"enum::");
    put_place(pen, out, number);
    put(pen, out, b"\">");
    put_code(pen, out, name);
    put(pen, out, b"</h3>\n");
}

fn put_users<K: Sink>(pen: &mut Pen, out: &mut K, sight: &Sight<'_>, field: u32)
    ensures { Writes (at (K.told out.old) (K.faults out.old) pen.old) (at (K.told out.new) (K.faults out.new) pen.new) (spec.users_line sight.now field) }
{
    put(pen, out, b"<p class=\"at\">Values of ");
    put_field_at(pen, out, sight, field);
    put(pen, out, b" and of each field that links here</p>\n");
}

fn put_name<K: Sink>(pen: &mut Pen, out: &mut K, number: usize, encoding: &Encoding<'_>)
    ensures { Writes (at (K.told out.old) (K.faults out.old) pen.old) (at (K.told out.new) (K.faults out.new) pen.new) (spec.heading number encoding.now.name) }
{
    put_heading(pen, out, number, encoding.name);
}

fn put_first_user<K: Sink>(pen: &mut Pen, out: &mut K, sight: &Sight<'_>, encoding: &Encoding<'_>)
    ensures { Writes (at (K.told out.old) (K.faults out.old) pen.old) (at (K.told out.new) (K.faults out.new) pen.new) (spec.users_line sight.now encoding.now.field) }
{
    put_users(pen, out, sight, encoding.field);
}

fn put_values_of<K: Sink>(
    pen: &mut Pen,
    out: &mut K,
    notes: &[Vec<Note<'_>>],
    number: usize,
    encoding: &Encoding<'_>,
)
    ensures { Writes (at (K.told out.old) (K.faults out.old) pen.old) (at (K.told out.new) (K.faults out.new) pen.new) (spec.values_table (get_or (map (λ v. v.items) notes.now) number []) encoding.now.entries) }
{
    match notes.get(number) {
        Some(list) => put_values(pen, out, list, encoding),
        None => put_values(pen, out, &[], encoding),
    }
}

fn put_enumeration<K: Sink>(
    pen: &mut Pen,
    out: &mut K,
    sight: &Sight<'_>,
    notes: &[Vec<Note<'_>>],
    number: usize,
    encoding: &Encoding<'_>,
)
    ensures { Writes (at (K.told out.old) (K.faults out.old) pen.old) (at (K.told out.new) (K.faults out.new) pen.new) (spec.enumeration_section sight.now (map (λ v. v.items) notes.now) (number, encoding.now)) }
{
    put_name(pen, out, number, encoding);
    put_first_user(pen, out, sight, encoding);
    put_values_of(pen, out, notes, number, encoding);
    put(pen, out, b"</section>\n");
}

fn put_each<K: Sink>(
    pen: &mut Pen,
    out: &mut K,
    sight: &Sight<'_>,
    notes: &[Vec<Note<'_>>],
    list: &[Encoding<'_>],
)
    ensures { Writes (at (K.told out.old) (K.faults out.old) pen.old) (at (K.told out.new) (K.faults out.new) pen.new) (flat_map (spec.enumeration_section sight.now (map (λ v. v.items) notes.now)) (enumerate_from 0 list.now)) }
{
    for (at, encoding) in list.iter().enumerate() {
        put_enumeration(pen, out, sight, notes, at, encoding);
    }
}

fn put_sections<K: Sink>(
    pen: &mut Pen,
    out: &mut K,
    sight: &Sight<'_>,
    notes: &[Vec<Note<'_>>],
    list: &[Encoding<'_>],
)
    ensures { Writes (at (K.told out.old) (K.faults out.old) pen.old) (at (K.told out.new) (K.faults out.new) pen.new) (spec.enumeration_sections sight.now (map (λ v. v.items) notes.now) list.now) }
{
    put(pen, out, b"<h2>Enumerations</h2>\n");
    put_each(pen, out, sight, notes, list);
}

fn put_all<K: Sink>(pen: &mut Pen, out: &mut K, sight: &Sight<'_>, notes: &[Vec<Note<'_>>])
    ensures { Writes (at (K.told out.old) (K.faults out.old) pen.old) (at (K.told out.new) (K.faults out.new) pen.new) (spec.enumeration_sections sight.now (map (λ v. v.items) notes.now) sight.now.encodings.list) }
{
    let encodings = sight.encodings;
    put_sections(pen, out, sight, notes, &encodings.list);
}

fn has_enumerations(sight: &Sight<'_>) -> bool
    ensures { result ≡ nat_lt 0 (length sight.now.encodings.list) }
{
    let encodings = sight.encodings;
    !encodings.list.is_empty()
}

/// Writes the section of enumerations, if there are any, with what the source says of the entries of each.
#[tactic(auto, using(html_text::proofs::Wrote::nothing))]
pub(crate) fn put_enumerations<K: Sink>(
    pen: &mut Pen,
    out: &mut K,
    sight: &Sight<'_>,
    notes: &[Vec<Note<'_>>],
)
    ensures { Writes (at (K.told out.old) (K.faults out.old) pen.old) (at (K.told out.new) (K.faults out.new) pen.new) (spec.enumerations sight.now (map (λ v. v.items) notes.now)) }
{
    if has_enumerations(sight) {
        put_all(pen, out, sight, notes);
    }
}
