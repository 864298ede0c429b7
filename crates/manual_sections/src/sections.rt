//! The section of a unit: its bits as lanes, and its fields; and the table of addresses.

ghost use Rattle.std.specs.Prelude.{◌≡◌, ◌-◌, ◌≤◌, decimal, flat_map, option_copied};
ghost use Rattle.manual_sections.specs.Rows.{rows, said_at};
ghost use Rattle.manual_sections.specs.Sections as spec;
ghost use Rattle.html_text.specs.Tags as tags;
ghost use Rattle.html_text.specs.Writing.{Writes, at};

use crate::rows::{put_desc_at, put_name_title, put_rows, view_at};
use crate::units::WordUnit;
use block_effects::Notes;
use encodings::Encodings;
use html_text::{
    Pen, put, put_decimal, put_hex, put_number, put_padded, put_place, put_small, put_three,
};
use manual_words::{Sight, put_path};
use rb_base::Text;
use rb_edge::Sink;
use rb_model::Block;
use word_groups::{Entry, Part};

fn is_written(block: &Block, part: &Part) -> bool
    ensures { result ≡ spec.is_written block.now part.now }
{
    match view_at(block, part.view) {
        None => false,
        Some(view) => view.writes,
    }
}

fn in_lane(block: &Block, write: bool, part: &Part) -> bool
    ensures { result ≡ spec.in_lane block.now write part.now }
{
    if write {
        is_written(block, part)
    } else {
        part.reads
    }
}

fn covers(bit: u32, part: &Part) -> bool
    ensures { result ≡ spec.covers bit part.now }
{
    u32::from(part.low) <= bit && bit < u32::from(part.low) + u32::from(part.bits)
}

fn is_at(block: &Block, write: bool, bit: u32, part: &Part) -> bool
    ensures { result ≡ spec.is_at block.now write bit part.now }
{
    in_lane(block, write, part) && covers(bit, part)
}

fn part_at<'p>(block: &Block, write: bool, bit: u32, parts: &'p [Part]) -> Option<&'p Part>
    ensures { option_copied result ≡ spec.part_at block.now write bit parts.now }
{
    let mut rest = parts;
    while let [part, more @ ..] = rest {
        if is_at(block, write, bit, part) {
            return Some(part);
        }
        rest = more;
    }
    None
}

fn end_of(end: u32, part: &Part) -> u32
    ensures { result ≡ spec.end_of end part.now }
{
    end.min(u32::from(part.low) + u32::from(part.bits))
}

fn span_of(base: u32, end: u32, part: &Part) -> u32
    ensures { result ≡ spec.span_of base end part.now }
{
    end_of(end, part).saturating_sub(base.max(u32::from(part.low)))
}

fn put_name_cell<K: Sink>(pen: &mut Pen, out: &mut K, span: u32, name: &[u8])
    ensures { Writes (at (K.told out.old) (K.faults out.old) pen.old) (at (K.told out.new) (K.faults out.new) pen.new) (spec.name_cell span name.now) }
{
    put(pen, out, b"<td colspan=\"");
    put_number(pen, out, span);
    put(pen, out, b"\">");
    put(pen, out, name);
    put(pen, out, b"</td>");
}

#[tactic(auto, using(html_text::proofs::Wrote::nothing))]
fn put_part_cell<K: Sink>(pen: &mut Pen, out: &mut K, base: u32, end: u32, bit: u32, part: &Part)
    ensures { Writes (at (K.told out.old) (K.faults out.old) pen.old) (at (K.told out.new) (K.faults out.new) pen.new) (spec.part_cell base end bit part.now) }
{
    if bit == end_of(end, part).saturating_sub(1) {
        put_name_cell(pen, out, span_of(base, end, part), &part.name.bytes);
    }
}

fn bare(write: bool) -> &'static [u8]
    ensures { result.now ≡ spec.bare write }
{
    if write { b"&ndash;" } else { b"0" }
}

fn put_bare<K: Sink>(pen: &mut Pen, out: &mut K, write: bool)
    ensures { Writes (at (K.told out.old) (K.faults out.old) pen.old) (at (K.told out.new) (K.faults out.new) pen.new) (spec.bare write) }
{
    put(pen, out, bare(write));
}

fn put_bare_cell<K: Sink>(pen: &mut Pen, out: &mut K, write: bool)
    ensures { Writes (at (K.told out.old) (K.faults out.old) pen.old) (at (K.told out.new) (K.faults out.new) pen.new) (spec.bare_cell write) }
{
    put(pen, out, b"<td class=\"z\">");
    put_bare(pen, out, write);
    put(pen, out, b"</td>");
}

fn put_cell<K: Sink>(
    pen: &mut Pen,
    out: &mut K,
    block: &Block,
    write: bool,
    base: u32,
    end: u32,
    parts: &[Part],
    bit: u32,
)
    ensures { Writes (at (K.told out.old) (K.faults out.old) pen.old) (at (K.told out.new) (K.faults out.new) pen.new) (spec.cell block.now write base end parts.now bit) }
{
    match part_at(block, write, bit, parts) {
        None => put_bare_cell(pen, out, write),
        Some(part) => put_part_cell(pen, out, base, end, bit, part),
    }
}

fn count_of(base: u32, end: u32) -> u32
    ensures { result ≡ end - base }
{
    end.saturating_sub(base)
}

fn put_cells<K: Sink>(
    pen: &mut Pen,
    out: &mut K,
    block: &Block,
    write: bool,
    base: u32,
    end: u32,
    parts: &[Part],
)
    ensures { Writes (at (K.told out.old) (K.faults out.old) pen.old) (at (K.told out.new) (K.faults out.new) pen.new) (flat_map (spec.cell block.now write base end parts.now) (spec.down base (end - base))) }
{
    let mut left = count_of(base, end);
    while left > 0 {
        left -= 1;
        put_cell(pen, out, block, write, base, end, parts, base + left);
    }
}

fn lane_name(write: bool) -> &'static [u8]
    ensures { result.now ≡ spec.lane_name write }
{
    if write { b"Write" } else { b"Read" }
}

fn put_lane_name<K: Sink>(pen: &mut Pen, out: &mut K, write: bool)
    ensures { Writes (at (K.told out.old) (K.faults out.old) pen.old) (at (K.told out.new) (K.faults out.new) pen.new) (spec.lane_name write) }
{
    put(pen, out, lane_name(write));
}

fn put_lane_head<K: Sink>(pen: &mut Pen, out: &mut K, write: bool)
    ensures { Writes (at (K.told out.old) (K.faults out.old) pen.old) (at (K.told out.new) (K.faults out.new) pen.new) (spec.lane_head write) }
{
    put(pen, out, b"<tr><th scope=\"row\">");
    put_lane_name(pen, out, write);
    put(pen, out, b"</th>");
}

fn put_lane<K: Sink>(
    pen: &mut Pen,
    out: &mut K,
    block: &Block,
    write: bool,
    base: u32,
    end: u32,
    parts: &[Part],
)
    ensures { Writes (at (K.told out.old) (K.faults out.old) pen.old) (at (K.told out.new) (K.faults out.new) pen.new) (spec.lane block.now write base end parts.now) }
{
    put_lane_head(pen, out, write);
    put_cells(pen, out, block, write, base, end, parts);
    put(pen, out, b"</tr>\n");
}

fn put_bit_head<K: Sink>(pen: &mut Pen, out: &mut K, bit: u32)
    ensures { Writes (at (K.told out.old) (K.faults out.old) pen.old) (at (K.told out.new) (K.faults out.new) pen.new) (spec.bit_head bit) }
{
    put(pen, out, b"<th scope=\"col\">");
    put_number(pen, out, bit);
    put(pen, out, b"</th>");
}

fn put_heads<K: Sink>(pen: &mut Pen, out: &mut K, base: u32, end: u32)
    ensures { Writes (at (K.told out.old) (K.faults out.old) pen.old) (at (K.told out.new) (K.faults out.new) pen.new) (flat_map spec.bit_head (spec.down base (end - base))) }
{
    let mut left = count_of(base, end);
    while left > 0 {
        left -= 1;
        put_bit_head(pen, out, base + left);
    }
}

fn put_bit_heads<K: Sink>(pen: &mut Pen, out: &mut K, base: u32, end: u32)
    ensures { Writes (at (K.told out.old) (K.faults out.old) pen.old) (at (K.told out.new) (K.faults out.new) pen.new) (spec.bit_heads base end) }
{
    put(pen, out, b"<tr><th scope=\"col\">Bit</th>");
    put_heads(pen, out, base, end);
    put(pen, out, b"</tr>\n");
}

fn put_last<K: Sink>(pen: &mut Pen, out: &mut K, end: u32)
    ensures { Writes (at (K.told out.old) (K.faults out.old) pen.old) (at (K.told out.new) (K.faults out.new) pen.new) (decimal (end - 1)) }
{
    put_decimal(pen, out, u64::from(end.saturating_sub(1)));
}

fn put_caption<K: Sink>(pen: &mut Pen, out: &mut K, base: u32, end: u32)
    ensures { Writes (at (K.told out.old) (K.faults out.old) pen.old) (at (K.told out.new) (K.faults out.new) pen.new) (spec.bits_caption base end) }
{
    put(pen, out, b"<table class=\"bits\"><caption>Bits ");
    put_last(pen, out, end);
    put(pen, out, b" to ");
    put_number(pen, out, base);
    put(pen, out, b"</caption>\n");
}

fn put_bits_table<K: Sink>(
    pen: &mut Pen,
    out: &mut K,
    block: &Block,
    base: u32,
    end: u32,
    parts: &[Part],
)
    ensures { Writes (at (K.told out.old) (K.faults out.old) pen.old) (at (K.told out.new) (K.faults out.new) pen.new) (spec.bits_table block.now base end parts.now) }
{
    put_caption(pen, out, base, end);
    put_bit_heads(pen, out, base, end);
    put_lane(pen, out, block, false, base, end, parts);
    put_lane(pen, out, block, true, base, end, parts);
    put(pen, out, b"</table>\n");
}

fn put_both_halves<K: Sink>(pen: &mut Pen, out: &mut K, block: &Block, width: u32, parts: &[Part])
    ensures { Writes (at (K.told out.old) (K.faults out.old) pen.old) (at (K.told out.new) (K.faults out.new) pen.new) (spec.both_halves block.now width parts.now) }
{
    put_bits_table(pen, out, block, 16, width, parts);
    put_bits_table(pen, out, block, 0, 16, parts);
}

fn put_halves<K: Sink>(pen: &mut Pen, out: &mut K, block: &Block, width: u32, parts: &[Part])
    ensures { Writes (at (K.told out.old) (K.faults out.old) pen.old) (at (K.told out.new) (K.faults out.new) pen.new) (spec.halves block.now width parts.now) }
{
    if width > 16 {
        put_both_halves(pen, out, block, width, parts);
    } else {
        put_bits_table(pen, out, block, 0, width, parts);
    }
}

fn bits_of(entry: &Entry) -> u32
    ensures { result ≡ spec.bits_of entry.now }
{
    u32::from(entry.bytes) * 8
}

fn put_entry_halves<K: Sink>(pen: &mut Pen, out: &mut K, block: &Block, entry: &Entry)
    ensures { Writes (at (K.told out.old) (K.faults out.old) pen.old) (at (K.told out.new) (K.faults out.new) pen.new) (spec.halves block.now (spec.bits_of entry.now) entry.now.parts) }
{
    put_halves(pen, out, block, bits_of(entry), &entry.parts.items);
}

fn put_diagram<K: Sink>(pen: &mut Pen, out: &mut K, block: &Block, entry: &Entry)
    ensures { Writes (at (K.told out.old) (K.faults out.old) pen.old) (at (K.told out.new) (K.faults out.new) pen.new) (spec.diagram block.now entry.now) }
{
    put(pen, out, b"<div class=\"wide\">\n");
    put_entry_halves(pen, out, block, entry);
    put(pen, out, b"</div>\n");
}

fn put_stride<K: Sink>(pen: &mut Pen, out: &mut K, number: usize, stride: u32)
    ensures { Writes (at (K.told out.old) (K.faults out.old) pen.old) (at (K.told out.new) (K.faults out.new) pen.new) (spec.stride_text (number, stride)) }
{
    put(pen, out, b" + ");
    put_stride_hex(pen, out, stride);
    put(pen, out, b" &middot; i");
    put_place(pen, out, number);
}

fn put_stride_hex<K: Sink>(pen: &mut Pen, out: &mut K, stride: u32)
    ensures { Writes (at (K.told out.old) (K.faults out.old) pen.old) (at (K.told out.new) (K.faults out.new) pen.new) (tags.hex stride) }
{
    put_hex(pen, out, u64::from(stride));
}

fn put_strides<K: Sink>(pen: &mut Pen, out: &mut K, strides: &[u32])
    ensures { Writes (at (K.told out.old) (K.faults out.old) pen.old) (at (K.told out.new) (K.faults out.new) pen.new) (spec.strides_text strides.now) }
{
    for (at, stride) in strides.iter().enumerate() {
        put_stride(pen, out, at, *stride);
    }
}

fn put_address<K: Sink>(pen: &mut Pen, out: &mut K, entry: &Entry)
    ensures { Writes (at (K.told out.old) (K.faults out.old) pen.old) (at (K.told out.new) (K.faults out.new) pen.new) (tags.padded 8 entry.now.address) }
{
    put_padded(pen, out, 8, u64::from(entry.address));
}

fn put_entry_strides<K: Sink>(pen: &mut Pen, out: &mut K, entry: &Entry)
    ensures { Writes (at (K.told out.old) (K.faults out.old) pen.old) (at (K.told out.new) (K.faults out.new) pen.new) (spec.strides_text entry.now.strides) }
{
    put_strides(pen, out, &entry.strides.items);
}

pub fn put_offset<K: Sink>(pen: &mut Pen, out: &mut K, entry: &Entry)
    ensures { Writes (at (K.told out.old) (K.faults out.old) pen.old) (at (K.told out.new) (K.faults out.new) pen.new) (spec.offset_text entry.now) }
{
    put_address(pen, out, entry);
    put_entry_strides(pen, out, entry);
}

fn put_gap_number<K: Sink>(pen: &mut Pen, out: &mut K, gap: &[u8], number: u8)
    ensures { Writes (at (K.told out.old) (K.faults out.old) pen.old) (at (K.told out.new) (K.faults out.new) pen.new) (spec.gap_number gap.now number) }
{
    put(pen, out, gap);
    put_small(pen, out, number);
}

#[tactic(auto, using(html_text::proofs::Wrote::nothing))]
fn put_numbered<K: Sink>(pen: &mut Pen, out: &mut K, gap: &[u8], number: u8)
    ensures { Writes (at (K.told out.old) (K.faults out.old) pen.old) (at (K.told out.new) (K.faults out.new) pen.new) (spec.numbered gap.now number) }
{
    if number != 0 {
        put_gap_number(pen, out, gap, number);
    }
}

pub fn put_label<K: Sink>(pen: &mut Pen, out: &mut K, sight: &Sight<'_>, path: &[u8], number: u8)
    ensures { Writes (at (K.told out.old) (K.faults out.old) pen.old) (at (K.told out.new) (K.faults out.new) pen.new) (spec.label sight.now path.now number) }
{
    put_path(pen, out, sight, path);
    put_numbered(pen, out, b", word ", number);
}

/// Whether an entry stands for the elements of an array.
pub fn is_shared(entry: &Entry) -> bool
    ensures { result ≡ spec.is_shared entry.now }
{
    !entry.lengths.items.is_empty()
}

fn put_heading<K: Sink>(
    pen: &mut Pen,
    out: &mut K,
    sight: &Sight<'_>,
    mark: &[u8],
    path: &[u8],
    number: u8,
)
    ensures { Writes (at (K.told out.old) (K.faults out.old) pen.old) (at (K.told out.new) (K.faults out.new) pen.new) (spec.heading sight.now mark.now path.now number) }
{
    put_three(pen, out, b"<section>\n<h3 id=\"", mark, b"\"><code>");
    put_label(pen, out, sight, path, number);
    put(pen, out, b"</code></h3>\n");
}

fn put_unit_heading<K: Sink>(pen: &mut Pen, out: &mut K, sight: &Sight<'_>, unit: &WordUnit)
    ensures { Writes (at (K.told out.old) (K.faults out.old) pen.old) (at (K.told out.new) (K.faults out.new) pen.new) (spec.heading sight.now unit.now.mark unit.now.entry.path unit.now.entry.number) }
{
    put_heading(
        pen,
        out,
        sight,
        &unit.mark.bytes,
        &unit.entry.path.bytes,
        unit.entry.number,
    );
}

pub fn put_bits_of<K: Sink>(pen: &mut Pen, out: &mut K, entry: &Entry)
    ensures { Writes (at (K.told out.old) (K.faults out.old) pen.old) (at (K.told out.new) (K.faults out.new) pen.new) (decimal (spec.bits_of entry.now)) }
{
    put_decimal(pen, out, u64::from(bits_of(entry)));
}

fn put_at<K: Sink>(pen: &mut Pen, out: &mut K, entry: &Entry)
    ensures { Writes (at (K.told out.old) (K.faults out.old) pen.old) (at (K.told out.new) (K.faults out.new) pen.new) (spec.place entry.now) }
{
    put(pen, out, b"<p class=\"at\">Offset <code>");
    put_offset(pen, out, entry);
    put(pen, out, b"</code>, ");
    put_bits_of(pen, out, entry);
    put(pen, out, b" bits</p>\n");
}

fn put_reg_title<K: Sink>(pen: &mut Pen, out: &mut K, notes: &Notes<'_>, entry: &Entry)
    ensures { Writes (at (K.told out.old) (K.faults out.old) pen.old) (at (K.told out.new) (K.faults out.new) pen.new) (tags.title (said_at notes.now.regs entry.now.reg).name) }
{
    put_name_title(pen, out, &notes.regs, entry.reg as usize);
}

fn put_reg_desc<K: Sink>(pen: &mut Pen, out: &mut K, notes: &Notes<'_>, entry: &Entry)
    ensures { Writes (at (K.told out.old) (K.faults out.old) pen.old) (at (K.told out.new) (K.faults out.new) pen.new) (tags.paragraph (said_at notes.now.regs entry.now.reg).desc) }
{
    put_desc_at(pen, out, &notes.regs, entry.reg as usize);
}

fn put_unit_rows<K: Sink>(
    pen: &mut Pen,
    out: &mut K,
    block: &Block,
    notes: &Notes<'_>,
    sight: &Sight<'_>,
    unit: &WordUnit,
)
    ensures { Writes (at (K.told out.old) (K.faults out.old) pen.old) (at (K.told out.new) (K.faults out.new) pen.new) (rows block.now notes.now.views sight.now unit.now.mark unit.now.entry.parts unit.now.effects) }
{
    put_rows(
        pen,
        out,
        block,
        &notes.views,
        sight,
        &unit.mark.bytes,
        &unit.entry.parts.items,
        &unit.effects.items,
    );
}

fn put_fields_head<K: Sink>(pen: &mut Pen, out: &mut K)
    ensures { Writes (at (K.told out.old) (K.faults out.old) pen.old) (at (K.told out.new) (K.faults out.new) pen.new) (spec.fields_head) }
{
    put(
        pen,
        out,
        b"<div class=\"wide\">\n<table><caption>Fields</caption>\n<tr><th scope=\"col\">Bits</th><th scope=\"col\">Field</th><th scope=\"col\">Software</th><th scope=\"col\">Hardware</th><th scope=\"col\">Reset</th><th scope=\"col\">Meaning</th></tr>\n",
    );
}

fn put_fields_table<K: Sink>(
    pen: &mut Pen,
    out: &mut K,
    block: &Block,
    notes: &Notes<'_>,
    sight: &Sight<'_>,
    unit: &WordUnit,
)
    ensures { Writes (at (K.told out.old) (K.faults out.old) pen.old) (at (K.told out.new) (K.faults out.new) pen.new) (spec.fields_table block.now notes.now.views sight.now unit.now) }
{
    put_fields_head(pen, out);
    put_unit_rows(pen, out, block, notes, sight, unit);
    put(pen, out, b"</table>\n</div>\n");
}

fn put_seen_section<K: Sink>(
    pen: &mut Pen,
    out: &mut K,
    block: &Block,
    notes: &Notes<'_>,
    sight: &Sight<'_>,
    unit: &WordUnit,
)
    ensures { Writes (at (K.told out.old) (K.faults out.old) pen.old) (at (K.told out.new) (K.faults out.new) pen.new) (spec.seen_section block.now notes.now sight.now unit.now) }
{
    put_unit_heading(pen, out, sight, unit);
    put_reg_title(pen, out, notes, &unit.entry);
    put_at(pen, out, &unit.entry);
    put_reg_desc(pen, out, notes, &unit.entry);
    put_diagram(pen, out, block, &unit.entry);
    put_fields_table(pen, out, block, notes, sight, unit);
    put(pen, out, b"</section>\n");
}

/// From where the names of a unit are seen.
pub fn sight_of<'s>(
    block: &'s Block,
    encodings: &'s Encodings<'s>,
    fields: &'s [Text],
    regs: &'s [Text],
    unit: &'s WordUnit,
) -> Sight<'s>
    ensures { result ≡ spec.sight block.now encodings.now fields.now regs.now unit.now }
{
    Sight {
        block,
        own: &unit.pieces.items,
        named: is_shared(&unit.entry),
        fields,
        regs,
        encodings,
    }
}

fn put_section<K: Sink>(
    pen: &mut Pen,
    out: &mut K,
    block: &Block,
    notes: &Notes<'_>,
    encodings: &Encodings<'_>,
    fields: &[Text],
    regs: &[Text],
    unit: &WordUnit,
)
    ensures { Writes (at (K.told out.old) (K.faults out.old) pen.old) (at (K.told out.new) (K.faults out.new) pen.new) (spec.section block.now notes.now encodings.now fields.now regs.now unit.now) }
{
    put_seen_section(
        pen,
        out,
        block,
        notes,
        &sight_of(block, encodings, fields, regs, unit),
        unit,
    );
}

fn put_each_section<K: Sink>(
    pen: &mut Pen,
    out: &mut K,
    block: &Block,
    notes: &Notes<'_>,
    encodings: &Encodings<'_>,
    fields: &[Text],
    regs: &[Text],
    units: &[WordUnit],
)
    ensures { Writes (at (K.told out.old) (K.faults out.old) pen.old) (at (K.told out.new) (K.faults out.new) pen.new) (flat_map (spec.section block.now notes.now encodings.now fields.now regs.now) units.now) }
{
    let mut rest = units;
    while let [unit, more @ ..] = rest {
        put_section(pen, out, block, notes, encodings, fields, regs, unit);
        rest = more;
    }
}

/// Writes the sections of units.
pub fn put_sections<K: Sink>(
    pen: &mut Pen,
    out: &mut K,
    block: &Block,
    notes: &Notes<'_>,
    encodings: &Encodings<'_>,
    fields: &[Text],
    regs: &[Text],
    units: &[WordUnit],
)
    ensures { Writes (at (K.told out.old) (K.faults out.old) pen.old) (at (K.told out.new) (K.faults out.new) pen.new) (spec.sections block.now notes.now encodings.now fields.now regs.now units.now) }
{
    put(pen, out, b"<h2>Registers</h2>\n");
    put_each_section(pen, out, block, notes, encodings, fields, regs, units);
}
