//! What the page says of the fields of a word.

ghost use Rattle.std.specs.Prelude.{◌≡◌, [], decimal, get_or, option_copied, slice_get};
ghost use Rattle.rb_model.specs.Ports as ports;
ghost use Rattle.manual_sections.specs.Rows as spec;
ghost use Rattle.manual_words.specs.Names.{encoded_by as number_of_encoding};
ghost use Rattle.html_text.specs.Tags as tags;
ghost use Rattle.html_text.specs.Writing.{Writes, at};

use block_effects::{Effect, Note};
use html_text::{
    Pen, put, put_decimal, put_hex, put_inline, put_paragraph, put_small, put_three, put_title,
};
use manual_words::{
    Sight, encoded_by, put_enumeration_item, put_field_at, put_pin_name, put_points,
};
use rb_edge::Sink;
use rb_model::{Block, Feed, Field, View};
use std::marker::Model;
use word_groups::Part;

/// What bits of a field do.
#[derive(Drop)]
pub struct Effects {
    pub items: Vec<Effect>,
}

impl Model for Effects {
    ghost use Rattle.std.specs.Prelude.{List};
    ghost use Rattle.block_effects.specs.declared.kinds.Effect.{Effect};

    ghost Value = { List Effect };

    ghost view = { λ all. all.items.items };
}

fn software(view: &View) -> &'static [u8]
    ensures { result.now ≡ spec.software view.now }
{
    match (view.reads, view.writes, view.once) {
        (true, true, true) => b"read, write once",
        (true, true, false) => b"read, write",
        (true, false, _) => b"read",
        (false, true, true) => b"write once",
        (false, true, false) => b"write",
        (false, false, _) => b"none",
    }
}

fn put_software<K: Sink>(pen: &mut Pen, out: &mut K, view: &View)
    ensures { Writes (at (K.told out.old) (K.faults out.old) pen.old) (at (K.told out.new) (K.faults out.new) pen.new) (spec.software view.now) }
{
    put(pen, out, software(view));
}

fn put_out<K: Sink>(pen: &mut Pen, out: &mut K, sight: &Sight<'_>, path: &[u8])
    ensures { Writes (at (K.told out.old) (K.faults out.old) pen.old) (at (K.told out.new) (K.faults out.new) pen.new) (spec.out_text sight.now path.now) }
{
    put(pen, out, b"reads ");
    put_pin_name(pen, out, sight, b"out$", path);
}

fn put_in_pin<K: Sink>(pen: &mut Pen, out: &mut K, sight: &Sight<'_>, path: &[u8])
    ensures { Writes (at (K.told out.old) (K.faults out.old) pen.old) (at (K.told out.new) (K.faults out.new) pen.new) (spec.in_pin_text sight.now path.now) }
{
    put(pen, out, b"writes ");
    put_pin_name(pen, out, sight, b"in$", path);
}

fn put_in<K: Sink>(pen: &mut Pen, out: &mut K, sight: &Sight<'_>, pin: bool, path: &[u8])
    ensures { Writes (at (K.told out.old) (K.faults out.old) pen.old) (at (K.told out.new) (K.faults out.new) pen.new) (spec.in_text sight.now pin path.now) }
{
    if pin {
        put_in_pin(pen, out, sight, path);
    } else {
        put(pen, out, b"writes");
    }
}

fn put_behind_comma<K: Sink>(pen: &mut Pen, out: &mut K, sight: &Sight<'_>, pin: bool, path: &[u8])
    ensures { Writes (at (K.told out.old) (K.faults out.old) pen.old) (at (K.told out.new) (K.faults out.new) pen.new) (spec.behind_comma sight.now pin path.now) }
{
    put(pen, out, b", ");
    put_in(pen, out, sight, pin, path);
}

#[tactic(auto, using(html_text::proofs::Wrote::nothing))]
fn put_further<K: Sink>(
    pen: &mut Pen,
    out: &mut K,
    sight: &Sight<'_>,
    writes: bool,
    pin: bool,
    path: &[u8],
)
    ensures { Writes (at (K.told out.old) (K.faults out.old) pen.old) (at (K.told out.new) (K.faults out.new) pen.new) (spec.further sight.now writes pin path.now) }
{
    if writes {
        put_behind_comma(pen, out, sight, pin, path);
    }
}

fn put_out_and<K: Sink>(
    pen: &mut Pen,
    out: &mut K,
    sight: &Sight<'_>,
    writes: bool,
    pin: bool,
    path: &[u8],
)
    ensures { Writes (at (K.told out.old) (K.faults out.old) pen.old) (at (K.told out.new) (K.faults out.new) pen.new) (spec.out_and sight.now writes pin path.now) }
{
    put_out(pen, out, sight, path);
    put_further(pen, out, sight, writes, pin, path);
}

fn put_in_alone<K: Sink>(
    pen: &mut Pen,
    out: &mut K,
    sight: &Sight<'_>,
    writes: bool,
    pin: bool,
    path: &[u8],
)
    ensures { Writes (at (K.told out.old) (K.faults out.old) pen.old) (at (K.told out.new) (K.faults out.new) pen.new) (spec.in_alone sight.now writes pin path.now) }
{
    if writes {
        put_in(pen, out, sight, pin, path);
    } else {
        put(pen, out, b"none");
    }
}

fn put_uses<K: Sink>(
    pen: &mut Pen,
    out: &mut K,
    sight: &Sight<'_>,
    reads: bool,
    writes: bool,
    pin: bool,
    path: &[u8],
)
    ensures { Writes (at (K.told out.old) (K.faults out.old) pen.old) (at (K.told out.new) (K.faults out.new) pen.new) (spec.uses sight.now reads writes pin path.now) }
{
    if reads {
        put_out_and(pen, out, sight, writes, pin, path);
    } else {
        put_in_alone(pen, out, sight, writes, pin, path);
    }
}

fn put_alias<K: Sink>(pen: &mut Pen, out: &mut K, sight: &Sight<'_>, number: u32)
    ensures { Writes (at (K.told out.old) (K.faults out.old) pen.old) (at (K.told out.new) (K.faults out.new) pen.new) (spec.alias_text sight.now number) }
{
    put(pen, out, b"of ");
    put_field_at(pen, out, sight, number);
}

/// Whether an input pin is made for it.
pub fn is_pin(from: Feed) -> bool
    ensures { result ≡ ports.is_pin from }
{
    match from {
        Feed::Pin => true,
        Feed::Off | Feed::Item(_) => false,
    }
}

fn put_hardware<K: Sink>(pen: &mut Pen, out: &mut K, sight: &Sight<'_>, view: &View, field: &Field)
    ensures { Writes (at (K.told out.old) (K.faults out.old) pen.old) (at (K.told out.new) (K.faults out.new) pen.new) (spec.hardware sight.now view.now field.now) }
{
    if view.alias {
        put_alias(pen, out, sight, view.field);
    } else {
        put_uses(
            pen,
            out,
            sight,
            field.hw_reads,
            field.hw_writes,
            is_pin(field.source),
            &field.path.bytes,
        );
    }
}

fn put_access<K: Sink>(pen: &mut Pen, out: &mut K, sight: &Sight<'_>, view: &View, field: &Field)
    ensures { Writes (at (K.told out.old) (K.faults out.old) pen.old) (at (K.told out.new) (K.faults out.new) pen.new) (spec.access_cells sight.now view.now field.now) }
{
    put(pen, out, b"<td>");
    put_software(pen, out, view);
    put(pen, out, b"</td><td>");
    put_hardware(pen, out, sight, view, field);
    put(pen, out, b"</td>");
}

fn name_at<'n>(notes: &[Note<'n>], number: usize) -> Option<&'n [u8]>
    ensures { option_copied result ≡ (spec.said_at notes.now number).name }
{
    match notes.get(number) {
        Some(note) => note.name,
        None => None,
    }
}

fn desc_at<'n>(notes: &[Note<'n>], number: usize) -> Option<&'n [u8]>
    ensures { option_copied result ≡ (spec.said_at notes.now number).desc }
{
    match notes.get(number) {
        Some(note) => note.desc,
        None => None,
    }
}

/// Writes a name below a heading, if there is one.
pub fn put_name_title<K: Sink>(pen: &mut Pen, out: &mut K, notes: &[Note<'_>], number: usize)
    ensures { Writes (at (K.told out.old) (K.faults out.old) pen.old) (at (K.told out.new) (K.faults out.new) pen.new) (tags.title (spec.said_at notes.now number).name) }
{
    put_title(pen, out, name_at(notes, number));
}

/// Writes a name in a line, if there is one.
pub fn put_name_inline<K: Sink>(pen: &mut Pen, out: &mut K, notes: &[Note<'_>], number: usize)
    ensures { Writes (at (K.told out.old) (K.faults out.old) pen.old) (at (K.told out.new) (K.faults out.new) pen.new) (tags.inline (spec.said_at notes.now number).name) }
{
    put_inline(pen, out, name_at(notes, number));
}

/// Writes a name as a paragraph, if there is one.
pub fn put_name_at<K: Sink>(pen: &mut Pen, out: &mut K, notes: &[Note<'_>], number: usize)
    ensures { Writes (at (K.told out.old) (K.faults out.old) pen.old) (at (K.told out.new) (K.faults out.new) pen.new) (tags.paragraph (spec.said_at notes.now number).name) }
{
    put_paragraph(pen, out, name_at(notes, number));
}

/// Writes a description as a paragraph, if there is one.
pub fn put_desc_at<K: Sink>(pen: &mut Pen, out: &mut K, notes: &[Note<'_>], number: usize)
    ensures { Writes (at (K.told out.old) (K.faults out.old) pen.old) (at (K.told out.new) (K.faults out.new) pen.new) (tags.paragraph (spec.said_at notes.now number).desc) }
{
    put_paragraph(pen, out, desc_at(notes, number));
}

fn put_top<K: Sink>(pen: &mut Pen, out: &mut K, low: u8, bits: u8)
    ensures { Writes (at (K.told out.old) (K.faults out.old) pen.old) (at (K.told out.new) (K.faults out.new) pen.new) (decimal (spec.top_bit low bits)) }
{
    let end = u64::from(low) + u64::from(bits);
    put_decimal(pen, out, end.saturating_sub(1));
}

fn put_span<K: Sink>(pen: &mut Pen, out: &mut K, low: u8, bits: u8)
    ensures { Writes (at (K.told out.old) (K.faults out.old) pen.old) (at (K.told out.new) (K.faults out.new) pen.new) (spec.span_cell low bits) }
{
    put(pen, out, b"<td class=\"n\">[");
    put_top(pen, out, low, bits);
    put(pen, out, b":");
    put_small(pen, out, low);
    put(pen, out, b"]</td>");
}

fn put_named_cell<K: Sink>(pen: &mut Pen, out: &mut K, mark: &[u8], name: &[u8])
    ensures { Writes (at (K.told out.old) (K.faults out.old) pen.old) (at (K.told out.new) (K.faults out.new) pen.new) (spec.field_cell mark.now name.now) }
{
    put_three(pen, out, b"<td class=\"f\" id=\"", mark, b".");
    put(pen, out, name);
    put(pen, out, b"\"><code>");
    put(pen, out, name);
    put(pen, out, b"</code></td>");
}

fn put_field_cell<K: Sink>(pen: &mut Pen, out: &mut K, mark: &[u8], part: &Part)
    ensures { Writes (at (K.told out.old) (K.faults out.old) pen.old) (at (K.told out.new) (K.faults out.new) pen.new) (spec.field_cell mark.now part.now.name) }
{
    put_named_cell(pen, out, mark, &part.name.bytes);
}

fn put_reset<K: Sink>(pen: &mut Pen, out: &mut K, reset: Option<u64>)
    ensures { Writes (at (K.told out.old) (K.faults out.old) pen.old) (at (K.told out.new) (K.faults out.new) pen.new) (spec.reset_text reset) }
{
    match reset {
        None => put(pen, out, b"none"),
        Some(number) => put_hex(pen, out, number),
    }
}

fn put_reset_cell<K: Sink>(pen: &mut Pen, out: &mut K, reset: Option<u64>)
    ensures { Writes (at (K.told out.old) (K.faults out.old) pen.old) (at (K.told out.new) (K.faults out.new) pen.new) (spec.reset_cell reset) }
{
    put(pen, out, b"<td class=\"n\">");
    put_reset(pen, out, reset);
    put(pen, out, b"</td>");
}

fn put_values_line<K: Sink>(pen: &mut Pen, out: &mut K, sight: &Sight<'_>, number: u32)
    ensures { Writes (at (K.told out.old) (K.faults out.old) pen.old) (at (K.told out.new) (K.faults out.new) pen.new) (spec.values_line sight.now number) }
{
    put(pen, out, b"<p>Values: ");
    put_enumeration_item(pen, out, sight, number);
    put(pen, out, b"</p>\n");
}

#[tactic(auto, using(html_text::proofs::Wrote::nothing))]
fn put_values<K: Sink>(pen: &mut Pen, out: &mut K, sight: &Sight<'_>, encoded: Option<u32>)
    ensures { Writes (at (K.told out.old) (K.faults out.old) pen.old) (at (K.told out.new) (K.faults out.new) pen.new) (spec.values_text sight.now encoded) }
{
    if let Some(number) = encoded {
        put_values_line(pen, out, sight, number);
    }
}

fn put_meaning<K: Sink>(
    pen: &mut Pen,
    out: &mut K,
    notes: &[Note<'_>],
    sight: &Sight<'_>,
    number: usize,
    encoded: Option<u32>,
    field: &[u8],
    view: &[u8],
    effects: &[Effect],
)
    ensures { Writes (at (K.told out.old) (K.faults out.old) pen.old) (at (K.told out.new) (K.faults out.new) pen.new) (spec.meaning_cell notes.now sight.now number encoded field.now view.now effects.now) }
{
    put(pen, out, b"<td class=\"m\">");
    put_name_at(pen, out, notes, number);
    put_desc_at(pen, out, notes, number);
    put_values(pen, out, sight, encoded);
    put_points(pen, out, sight, field, view, effects);
    put(pen, out, b"</td>");
}

fn put_meaning_cell<K: Sink>(
    pen: &mut Pen,
    out: &mut K,
    notes: &[Note<'_>],
    sight: &Sight<'_>,
    part: &Part,
    view: &View,
    field: &Field,
    effects: &[Effect],
)
    ensures { Writes (at (K.told out.old) (K.faults out.old) pen.old) (at (K.told out.new) (K.faults out.new) pen.new) (spec.meaning_cell notes.now sight.now part.now.view (number_of_encoding sight.now view.now.field) field.now.path view.now.path effects.now) }
{
    put_meaning(
        pen,
        out,
        notes,
        sight,
        part.view as usize,
        encoded_by(sight, view.field),
        &field.path.bytes,
        &view.path.bytes,
        effects,
    );
}

fn put_fielded<K: Sink>(
    pen: &mut Pen,
    out: &mut K,
    notes: &[Note<'_>],
    sight: &Sight<'_>,
    mark: &[u8],
    part: &Part,
    view: &View,
    field: &Field,
    effects: &[Effect],
)
    ensures { Writes (at (K.told out.old) (K.faults out.old) pen.old) (at (K.told out.new) (K.faults out.new) pen.new) (spec.row notes.now sight.now mark.now part.now view.now field.now effects.now) }
{
    put(pen, out, b"<tr>");
    put_span(pen, out, part.low, part.bits);
    put_field_cell(pen, out, mark, part);
    put_access(pen, out, sight, view, field);
    put_reset_cell(pen, out, part.reset);
    put_meaning_cell(pen, out, notes, sight, part, view, field, effects);
    put(pen, out, b"</tr>\n");
}

/// The view of a number.
pub(crate) fn view_at(block: &Block, number: u32) -> Option<&View>
    ensures { option_copied result ≡ slice_get block.now.views number }
{
    block.views.items.get(number as usize)
}

pub(crate) fn field_of<'b>(block: &'b Block, view: &View) -> Option<&'b Field>
    ensures { option_copied result ≡ slice_get block.now.fields view.now.field }
{
    block.fields.items.get(view.field as usize)
}

#[tactic(auto, using(html_text::proofs::Wrote::nothing))]
fn put_viewed<K: Sink>(
    pen: &mut Pen,
    out: &mut K,
    block: &Block,
    notes: &[Note<'_>],
    sight: &Sight<'_>,
    mark: &[u8],
    part: &Part,
    view: &View,
    effects: &[Effect],
)
    ensures { Writes (at (K.told out.old) (K.faults out.old) pen.old) (at (K.told out.new) (K.faults out.new) pen.new) (spec.viewed_row block.now notes.now sight.now mark.now part.now view.now (slice_get block.now.fields view.now.field) effects.now) }
{
    match field_of(block, view) {
        None => (),
        Some(field) => put_fielded(pen, out, notes, sight, mark, part, view, field, effects),
    }
}

#[tactic(auto, using(html_text::proofs::Wrote::nothing))]
fn put_row<K: Sink>(
    pen: &mut Pen,
    out: &mut K,
    block: &Block,
    notes: &[Note<'_>],
    sight: &Sight<'_>,
    mark: &[u8],
    part: &Part,
    effects: &[Effect],
)
    ensures { Writes (at (K.told out.old) (K.faults out.old) pen.old) (at (K.told out.new) (K.faults out.new) pen.new) (spec.part_row block.now notes.now sight.now mark.now part.now effects.now) }
{
    match view_at(block, part.view) {
        None => (),
        Some(view) => put_viewed(pen, out, block, notes, sight, mark, part, view, effects),
    }
}

fn effects_at(effects: &[Effects], number: usize) -> &[Effect]
    ensures { result.now ≡ get_or effects.now number [] }
{
    match effects.get(number) {
        Some(effects) => &effects.items,
        None => &[],
    }
}

// Writes the row of the part of a number.
fn put_row_at<K: Sink>(
    pen: &mut Pen,
    out: &mut K,
    block: &Block,
    notes: &[Note<'_>],
    sight: &Sight<'_>,
    mark: &[u8],
    effects: &[Effects],
    number: usize,
    part: &Part,
)
    ensures { Writes (at (K.told out.old) (K.faults out.old) pen.old) (at (K.told out.new) (K.faults out.new) pen.new) (spec.row_at block.now notes.now sight.now mark.now effects.now (number, part.now)) }
{
    put_row(
        pen,
        out,
        block,
        notes,
        sight,
        mark,
        part,
        effects_at(effects, number),
    );
}

/// Writes the rows of parts, of which each has effects.
pub fn put_rows<K: Sink>(
    pen: &mut Pen,
    out: &mut K,
    block: &Block,
    notes: &[Note<'_>],
    sight: &Sight<'_>,
    mark: &[u8],
    parts: &[Part],
    effects: &[Effects],
)
    ensures { Writes (at (K.told out.old) (K.faults out.old) pen.old) (at (K.told out.new) (K.faults out.new) pen.new) (spec.rows block.now notes.now sight.now mark.now parts.now effects.now) }
{
    for (at, part) in parts.iter().enumerate() {
        put_row_at(pen, out, block, notes, sight, mark, effects, at, part);
    }
}
