//! The table of addresses.

ghost use Rattle.std.specs.Prelude.{◌*◌, flat_map};
ghost use Rattle.word_groups.specs.Parts.{resval};
ghost use Rattle.html_text.specs.Writing.{Writes, at};
ghost use Rattle.html_text.specs.Tags as tags;
ghost use Rattle.manual_sections.specs.Rows.{said_at};
ghost use Rattle.manual_sections.specs.Sections as spec;

use block_effects::Note;
use encodings::Encodings;
use html_text::{Pen, put, put_number, put_padded, put_three};
use manual_sections::{WordUnit, put_bits_of, put_label, put_name_inline, put_offset, sight_of};
use manual_words::Sight;
use rb_base::Text;
use rb_edge::Sink;
use rb_model::Block;
use word_groups::{Entry, resval};

fn put_times<K: Sink>(pen: &mut Pen, out: &mut K, count: u32)
    ensures { Writes (at (K.told out.old) (K.faults out.old) pen.old) (at (K.told out.new) (K.faults out.new) pen.new) (spec.times count) }
{
    put(pen, out, b" &times; ");
    put_number(pen, out, count);
}

fn put_all_times<K: Sink>(pen: &mut Pen, out: &mut K, counts: &[u32])
    ensures { Writes (at (K.told out.old) (K.faults out.old) pen.old) (at (K.told out.new) (K.faults out.new) pen.new) (flat_map spec.times counts.now) }
{
    for count in counts {
        put_times(pen, out, *count);
    }
}

fn put_many_elements<K: Sink>(pen: &mut Pen, out: &mut K, first: u32, more: &[u32])
    ensures { Writes (at (K.told out.old) (K.faults out.old) pen.old) (at (K.told out.new) (K.faults out.new) pen.new) (spec.many_elements first more.now) }
{
    put_number(pen, out, first);
    put_all_times(pen, out, more);
}

fn put_elements<K: Sink>(pen: &mut Pen, out: &mut K, lengths: &[u32])
    ensures { Writes (at (K.told out.old) (K.faults out.old) pen.old) (at (K.told out.new) (K.faults out.new) pen.new) (spec.elements lengths.now) }
{
    match lengths {
        [] => put(pen, out, b"1"),
        [first, more @ ..] => put_many_elements(pen, out, *first, more),
    }
}

fn put_entry_elements<K: Sink>(pen: &mut Pen, out: &mut K, entry: &Entry)
    ensures { Writes (at (K.told out.old) (K.faults out.old) pen.old) (at (K.told out.new) (K.faults out.new) pen.new) (spec.elements entry.now.lengths) }
{
    put_elements(pen, out, &entry.lengths.items);
}

fn put_word_reset<K: Sink>(pen: &mut Pen, out: &mut K, places: usize, reset: Option<u64>)
    ensures { Writes (at (K.told out.old) (K.faults out.old) pen.old) (at (K.told out.new) (K.faults out.new) pen.new) (spec.word_reset places reset) }
{
    match reset {
        None => put(pen, out, b"&ndash;"),
        Some(value) => put_padded(pen, out, places, value),
    }
}

fn put_entry_reset<K: Sink>(pen: &mut Pen, out: &mut K, entry: &Entry)
    ensures { Writes (at (K.told out.old) (K.faults out.old) pen.old) (at (K.told out.new) (K.faults out.new) pen.new) (spec.word_reset (entry.now.bytes * 2) (resval entry.now.parts)) }
{
    put_word_reset(
        pen,
        out,
        usize::from(entry.bytes) * 2,
        resval(&entry.parts.items),
    );
}

fn put_place_cells<K: Sink>(pen: &mut Pen, out: &mut K, entry: &Entry)
    ensures { Writes (at (K.told out.old) (K.faults out.old) pen.old) (at (K.told out.new) (K.faults out.new) pen.new) (spec.place_cells entry.now) }
{
    put(pen, out, b"<tr><td class=\"n\">");
    put_offset(pen, out, entry);
    put(pen, out, b"</td><td class=\"n\">");
    put_bits_of(pen, out, entry);
    put(pen, out, b"</td>");
}

fn put_label_cell<K: Sink>(
    pen: &mut Pen,
    out: &mut K,
    sight: &Sight<'_>,
    mark: &[u8],
    path: &[u8],
    number: u8,
)
    ensures { Writes (at (K.told out.old) (K.faults out.old) pen.old) (at (K.told out.new) (K.faults out.new) pen.new) (spec.label_cell sight.now mark.now path.now number) }
{
    put_three(pen, out, b"<td class=\"n\"><a href=\"#", mark, b"\">");
    put_label(pen, out, sight, path, number);
    put(pen, out, b"</a></td>");
}

fn put_unit_label<K: Sink>(pen: &mut Pen, out: &mut K, sight: &Sight<'_>, unit: &WordUnit)
    ensures { Writes (at (K.told out.old) (K.faults out.old) pen.old) (at (K.told out.new) (K.faults out.new) pen.new) (spec.label_cell sight.now unit.now.mark unit.now.entry.path unit.now.entry.number) }
{
    put_label_cell(
        pen,
        out,
        sight,
        &unit.mark.bytes,
        &unit.entry.path.bytes,
        unit.entry.number,
    );
}

fn put_entry_name<K: Sink>(pen: &mut Pen, out: &mut K, notes: &[Note<'_>], entry: &Entry)
    ensures { Writes (at (K.told out.old) (K.faults out.old) pen.old) (at (K.told out.new) (K.faults out.new) pen.new) (tags.inline (said_at notes.now entry.now.reg).name) }
{
    put_name_inline(pen, out, notes, entry.reg as usize);
}

fn put_about_cells<K: Sink>(pen: &mut Pen, out: &mut K, notes: &[Note<'_>], entry: &Entry)
    ensures { Writes (at (K.told out.old) (K.faults out.old) pen.old) (at (K.told out.new) (K.faults out.new) pen.new) (spec.about_cells notes.now entry.now) }
{
    put(pen, out, b"<td class=\"n\">");
    put_entry_elements(pen, out, entry);
    put(pen, out, b"</td><td class=\"n\">");
    put_entry_reset(pen, out, entry);
    put(pen, out, b"</td><td class=\"text\">");
    put_entry_name(pen, out, notes, entry);
    put(pen, out, b"</td></tr>\n");
}

fn put_seen_address<K: Sink>(
    pen: &mut Pen,
    out: &mut K,
    notes: &[Note<'_>],
    sight: &Sight<'_>,
    unit: &WordUnit,
)
    ensures { Writes (at (K.told out.old) (K.faults out.old) pen.old) (at (K.told out.new) (K.faults out.new) pen.new) (spec.seen_address notes.now sight.now unit.now) }
{
    put_place_cells(pen, out, &unit.entry);
    put_unit_label(pen, out, sight, unit);
    put_about_cells(pen, out, notes, &unit.entry);
}

fn put_address<K: Sink>(
    pen: &mut Pen,
    out: &mut K,
    block: &Block,
    notes: &[Note<'_>],
    encodings: &Encodings<'_>,
    fields: &[Text],
    marks: &[Text],
    unit: &WordUnit,
)
    ensures { Writes (at (K.told out.old) (K.faults out.old) pen.old) (at (K.told out.new) (K.faults out.new) pen.new) (spec.address_row block.now notes.now encodings.now fields.now marks.now unit.now) }
{
    put_seen_address(
        pen,
        out,
        notes,
        &sight_of(block, encodings, fields, marks, unit),
        unit,
    );
}

fn put_rows<K: Sink>(
    pen: &mut Pen,
    out: &mut K,
    block: &Block,
    notes: &[Note<'_>],
    encodings: &Encodings<'_>,
    fields: &[Text],
    marks: &[Text],
    units: &[WordUnit],
)
    ensures { Writes (at (K.told out.old) (K.faults out.old) pen.old) (at (K.told out.new) (K.faults out.new) pen.new) (flat_map (spec.address_row block.now notes.now encodings.now fields.now marks.now) units.now) }
{
    let mut rest = units;
    while let [unit, more @ ..] = rest {
        put_address(pen, out, block, notes, encodings, fields, marks, unit);
        rest = more;
    }
}

fn put_addresses_head<K: Sink>(pen: &mut Pen, out: &mut K)
    ensures { Writes (at (K.told out.old) (K.faults out.old) pen.old) (at (K.told out.new) (K.faults out.new) pen.new) spec.addresses_head }
{
    put(
        pen,
        out,
        b"<h2>Addresses</h2>\n<p>Offsets count bytes. <code>i0</code>, <code>i1</code>, .. are indices, from 0 on.</p>\n<div class=\"wide\">\n<table>\n<tr><th scope=\"col\">Offset</th><th scope=\"col\">Bits</th><th scope=\"col\">Register</th><th scope=\"col\">Elements</th><th scope=\"col\">Reset</th><th scope=\"col\">Name</th></tr>\n",
    );
}

/// Writes the table of the words' addresses, with what the source says of registers. Each name refers to its section.
pub(crate) fn put_addresses<K: Sink>(
    pen: &mut Pen,
    out: &mut K,
    block: &Block,
    notes: &[Note<'_>],
    encodings: &Encodings<'_>,
    fields: &[Text],
    marks: &[Text],
    units: &[WordUnit],
)
    ensures { Writes (at (K.told out.old) (K.faults out.old) pen.old) (at (K.told out.new) (K.faults out.new) pen.new) (spec.addresses block.now notes.now encodings.now fields.now marks.now units.now) }
{
    put_addresses_head(pen, out);
    put_rows(pen, out, block, notes, encodings, fields, marks, units);
    put(pen, out, b"</table>\n</div>\n");
}
