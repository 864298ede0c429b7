//! The table of interrupts: of each output what raises it and what it leads to.

ghost use Rattle.std.specs.Prelude.{◌≡◌, ◌++◌, [], Some, codes, flat_map, get_or, option_copied, slice_get};
ghost use Rattle.std.specs.List.{enumerate_from, list_any};
ghost use Rattle.html_manual.specs.Interrupts as spec;
ghost use Rattle.html_text.specs.Tags as tags;
ghost use Rattle.html_text.specs.Writing.{Writes, at};

use crate::tables::{Filed, Tables};
use html_text::{Pen, put};
use manual_words::{Sight, put_field_at, put_item, put_reg_item};
use rb_edge::Sink;
use rb_effects::is_on;
use rb_model::{Block, Field, Mask, RefItem, Reg};

fn put_where_item<K: Sink>(
    pen: &mut Pen,
    out: &mut K,
    sight: &Sight<'_>,
    word: &[u8],
    item: RefItem,
)
    ensures { Writes (at (K.told out.old) (K.faults out.old) pen.old) (at (K.told out.new) (K.faults out.new) pen.new) (spec.mask_item sight.now word.now item) }
{
    put(pen, out, b" where ");
    put_item(pen, out, sight, item);
    put(pen, out, word);
}

#[tactic(auto, using(html_text::proofs::Wrote::nothing))]
fn put_where<K: Sink>(pen: &mut Pen, out: &mut K, sight: &Sight<'_>, mask: Mask)
    ensures { Writes (at (K.told out.old) (K.faults out.old) pen.old) (at (K.told out.new) (K.faults out.new) pen.new) (spec.where_text sight.now mask) }
{
    match mask {
        Mask::Off => (),
        Mask::Enable(item) => put_where_item(pen, out, sight, b" is 1", item),
        Mask::Mask(item) => put_where_item(pen, out, sight, b" is 0", item),
    }
}

fn put_counted<K: Sink>(pen: &mut Pen, out: &mut K, sight: &Sight<'_>, mask: Mask, number: u32)
    ensures { Writes (at (K.told out.old) (K.faults out.old) pen.old) (at (K.told out.new) (K.faults out.new) pen.new) (spec.counted_text sight.now mask number) }
{
    put(pen, out, b"<li>");
    put_field_at(pen, out, sight, number);
    put_where(pen, out, sight, mask);
    put(pen, out, b"</li>");
}

fn field_at(block: &Block, number: u32) -> Option<&Field>
    ensures { option_copied result ≡ slice_get block.now.fields number }
{
    block.fields.items.get(number as usize)
}

#[tactic(auto, using(html_text::proofs::Wrote::nothing))]
fn put_intr_field<K: Sink>(pen: &mut Pen, out: &mut K, sight: &Sight<'_>, number: u32)
    ensures { Writes (at (K.told out.old) (K.faults out.old) pen.old) (at (K.told out.new) (K.faults out.new) pen.new) (spec.intr_field sight.now number) }
{
    match field_at(sight.block, number) {
        None => (),
        Some(field) => put_counted(pen, out, sight, field.enable, number),
    }
}

#[tactic(auto, using(html_text::proofs::Wrote::nothing))]
fn put_halting<K: Sink>(pen: &mut Pen, out: &mut K, sight: &Sight<'_>, number: u32, field: &Field)
    ensures { Writes (at (K.told out.old) (K.faults out.old) pen.old) (at (K.told out.new) (K.faults out.new) pen.new) (spec.halt_line sight.now number (Some field.now)) }
{
    if is_on(field.halt) {
        put_counted(pen, out, sight, field.halt, number);
    }
}

#[tactic(auto, using(html_text::proofs::Wrote::nothing))]
fn put_halt_field<K: Sink>(pen: &mut Pen, out: &mut K, sight: &Sight<'_>, number: u32)
    ensures { Writes (at (K.told out.old) (K.faults out.old) pen.old) (at (K.told out.new) (K.faults out.new) pen.new) (spec.halt_field sight.now number) }
{
    match field_at(sight.block, number) {
        None => (),
        Some(field) => put_halting(pen, out, sight, number, field),
    }
}

fn put_user<K: Sink>(pen: &mut Pen, out: &mut K, sight: &Sight<'_>, number: u32)
    ensures { Writes (at (K.told out.old) (K.faults out.old) pen.old) (at (K.told out.new) (K.faults out.new) pen.new) (spec.user_line sight.now number) }
{
    put(pen, out, b"<li>input of ");
    put_field_at(pen, out, sight, number);
    put(pen, out, b"</li>");
}

fn put_intr_fields<K: Sink>(pen: &mut Pen, out: &mut K, sight: &Sight<'_>, numbers: &[u32])
    ensures { Writes (at (K.told out.old) (K.faults out.old) pen.old) (at (K.told out.new) (K.faults out.new) pen.new) (flat_map (spec.intr_field sight.now) numbers.now) }
{
    for number in numbers {
        put_intr_field(pen, out, sight, *number);
    }
}

fn put_halt_fields<K: Sink>(pen: &mut Pen, out: &mut K, sight: &Sight<'_>, numbers: &[u32])
    ensures { Writes (at (K.told out.old) (K.faults out.old) pen.old) (at (K.told out.new) (K.faults out.new) pen.new) (flat_map (spec.halt_field sight.now) numbers.now) }
{
    for number in numbers {
        put_halt_field(pen, out, sight, *number);
    }
}

fn put_users<K: Sink>(pen: &mut Pen, out: &mut K, sight: &Sight<'_>, numbers: &[u32])
    ensures { Writes (at (K.told out.old) (K.faults out.old) pen.old) (at (K.told out.new) (K.faults out.new) pen.new) (flat_map (spec.user_line sight.now) numbers.now) }
{
    for number in numbers {
        put_user(pen, out, sight, *number);
    }
}

fn numbers_at(filed: &Filed, number: usize) -> &[u32]
    ensures { result.now ≡ get_or filed.now number [] }
{
    match filed.items.get(number) {
        Some(numbers) => &numbers.items,
        None => &[],
    }
}

fn put_intr_list<K: Sink>(pen: &mut Pen, out: &mut K, sight: &Sight<'_>, numbers: &[u32])
    ensures { Writes (at (K.told out.old) (K.faults out.old) pen.old) (at (K.told out.new) (K.faults out.new) pen.new) (spec.raised_list (spec.intr_field sight.now) numbers.now) }
{
    put(pen, out, b"<ul>");
    put_intr_fields(pen, out, sight, numbers);
    put(pen, out, b"</ul>");
}

fn put_halt_list<K: Sink>(pen: &mut Pen, out: &mut K, sight: &Sight<'_>, numbers: &[u32])
    ensures { Writes (at (K.told out.old) (K.faults out.old) pen.old) (at (K.told out.new) (K.faults out.new) pen.new) (spec.raised_list (spec.halt_field sight.now) numbers.now) }
{
    put(pen, out, b"<ul>");
    put_halt_fields(pen, out, sight, numbers);
    put(pen, out, b"</ul>");
}

fn put_joined<K: Sink>(pen: &mut Pen, out: &mut K, role: &[u8], path: &[u8])
    ensures { Writes (at (K.told out.old) (K.faults out.old) pen.old) (at (K.told out.new) (K.faults out.new) pen.new) (role.now ++ path.now) }
{
    put(pen, out, role);
    put(pen, out, path);
}

fn put_pin<K: Sink>(pen: &mut Pen, out: &mut K, role: &[u8], path: &[u8])
    ensures { Writes (at (K.told out.old) (K.faults out.old) pen.old) (at (K.told out.new) (K.faults out.new) pen.new) (tags.code (role.now ++ path.now)) }
{
    put(pen, out, b"<code>");
    put_joined(pen, out, role, path);
    put(pen, out, b"</code>");
}

fn put_pin_line<K: Sink>(pen: &mut Pen, out: &mut K, role: &[u8], path: &[u8])
    ensures { Writes (at (K.told out.old) (K.faults out.old) pen.old) (at (K.told out.new) (K.faults out.new) pen.new) (spec.pin_line role.now path.now) }
{
    put(pen, out, b"<li>pin ");
    put_pin(pen, out, role, path);
    put(pen, out, b"</li>");
}

fn put_leads<K: Sink>(
    pen: &mut Pen,
    out: &mut K,
    sight: &Sight<'_>,
    role: &[u8],
    path: &[u8],
    numbers: &[u32],
)
    ensures { Writes (at (K.told out.old) (K.faults out.old) pen.old) (at (K.told out.new) (K.faults out.new) pen.new) (spec.leads_list sight.now role.now path.now numbers.now) }
{
    put(pen, out, b"<ul>");
    put_pin_line(pen, out, role, path);
    put_users(pen, out, sight, numbers);
    put(pen, out, b"</ul>");
}

fn put_output_name<K: Sink>(
    pen: &mut Pen,
    out: &mut K,
    sight: &Sight<'_>,
    number: usize,
    property: &[u8],
)
    ensures { Writes (at (K.told out.old) (K.faults out.old) pen.old) (at (K.told out.new) (K.faults out.new) pen.new) (spec.output_name sight.now number property.now) }
{
    put(pen, out, b"<tr><td class=\"f\">");
    put_reg_item(pen, out, sight, number, property);
    put(pen, out, b"</td><td>");
}

fn put_intr_raised<K: Sink>(
    pen: &mut Pen,
    out: &mut K,
    sight: &Sight<'_>,
    tables: &Tables,
    number: usize,
)
    ensures { Writes (at (K.told out.old) (K.faults out.old) pen.old) (at (K.told out.new) (K.faults out.new) pen.new) (spec.raised_list (spec.intr_field sight.now) (get_or tables.now.counted number [])) }
{
    put_intr_list(pen, out, sight, numbers_at(&tables.counted, number));
}

fn put_intr_leads<K: Sink>(
    pen: &mut Pen,
    out: &mut K,
    sight: &Sight<'_>,
    tables: &Tables,
    number: usize,
    path: &[u8],
)
    ensures { Writes (at (K.told out.old) (K.faults out.old) pen.old) (at (K.told out.new) (K.faults out.new) pen.new) (spec.leads_list sight.now (codes "intr$") path.now (get_or tables.now.intr_users number [])) }
{
    put_leads(
        pen,
        out,
        sight,
        b"intr$",
        path,
        numbers_at(&tables.intr_users, number),
    );
}

fn put_intr_row<K: Sink>(
    pen: &mut Pen,
    out: &mut K,
    sight: &Sight<'_>,
    tables: &Tables,
    number: usize,
    path: &[u8],
)
    ensures { Writes (at (K.told out.old) (K.faults out.old) pen.old) (at (K.told out.new) (K.faults out.new) pen.new) (spec.intr_row sight.now tables.now number path.now) }
{
    put_output_name(pen, out, sight, number, b"-&gt;intr");
    put_intr_raised(pen, out, sight, tables, number);
    put(pen, out, b"</td><td>");
    put_intr_leads(pen, out, sight, tables, number, path);
    put(pen, out, b"</td></tr>\n");
}

fn put_halt_raised<K: Sink>(
    pen: &mut Pen,
    out: &mut K,
    sight: &Sight<'_>,
    tables: &Tables,
    number: usize,
)
    ensures { Writes (at (K.told out.old) (K.faults out.old) pen.old) (at (K.told out.new) (K.faults out.new) pen.new) (spec.raised_list (spec.halt_field sight.now) (get_or tables.now.counted number [])) }
{
    put_halt_list(pen, out, sight, numbers_at(&tables.counted, number));
}

fn put_halt_leads<K: Sink>(
    pen: &mut Pen,
    out: &mut K,
    sight: &Sight<'_>,
    tables: &Tables,
    number: usize,
    path: &[u8],
)
    ensures { Writes (at (K.told out.old) (K.faults out.old) pen.old) (at (K.told out.new) (K.faults out.new) pen.new) (spec.leads_list sight.now (codes "halt$") path.now (get_or tables.now.halt_users number [])) }
{
    put_leads(
        pen,
        out,
        sight,
        b"halt$",
        path,
        numbers_at(&tables.halt_users, number),
    );
}

fn put_halt_row<K: Sink>(
    pen: &mut Pen,
    out: &mut K,
    sight: &Sight<'_>,
    tables: &Tables,
    number: usize,
    path: &[u8],
)
    ensures { Writes (at (K.told out.old) (K.faults out.old) pen.old) (at (K.told out.new) (K.faults out.new) pen.new) (spec.halt_row sight.now tables.now number path.now) }
{
    put_output_name(pen, out, sight, number, b"-&gt;halt");
    put_halt_raised(pen, out, sight, tables, number);
    put(pen, out, b"</td><td>");
    put_halt_leads(pen, out, sight, tables, number, path);
    put(pen, out, b"</td></tr>\n");
}

#[tactic(auto, using(html_text::proofs::Wrote::nothing))]
fn put_if_intr<K: Sink>(
    pen: &mut Pen,
    out: &mut K,
    sight: &Sight<'_>,
    tables: &Tables,
    number: usize,
    register: &Reg,
)
    ensures { Writes (at (K.told out.old) (K.faults out.old) pen.old) (at (K.told out.new) (K.faults out.new) pen.new) (spec.if_intr sight.now tables.now (number, register.now)) }
{
    if register.intr {
        put_intr_row(pen, out, sight, tables, number, &register.path.bytes);
    }
}

#[tactic(auto, using(html_text::proofs::Wrote::nothing))]
fn put_if_halt<K: Sink>(
    pen: &mut Pen,
    out: &mut K,
    sight: &Sight<'_>,
    tables: &Tables,
    number: usize,
    register: &Reg,
)
    ensures { Writes (at (K.told out.old) (K.faults out.old) pen.old) (at (K.told out.new) (K.faults out.new) pen.new) (spec.if_halt sight.now tables.now (number, register.now)) }
{
    if register.halt {
        put_halt_row(pen, out, sight, tables, number, &register.path.bytes);
    }
}

fn put_outputs<K: Sink>(
    pen: &mut Pen,
    out: &mut K,
    sight: &Sight<'_>,
    tables: &Tables,
    number: usize,
    register: &Reg,
)
    ensures { Writes (at (K.told out.old) (K.faults out.old) pen.old) (at (K.told out.new) (K.faults out.new) pen.new) (spec.output_rows sight.now tables.now (number, register.now)) }
{
    put_if_intr(pen, out, sight, tables, number, register);
    put_if_halt(pen, out, sight, tables, number, register);
}

fn put_regs<K: Sink>(
    pen: &mut Pen,
    out: &mut K,
    sight: &Sight<'_>,
    tables: &Tables,
    registers: &[Reg],
)
    ensures { Writes (at (K.told out.old) (K.faults out.old) pen.old) (at (K.told out.new) (K.faults out.new) pen.new) (flat_map (spec.output_rows sight.now tables.now) (enumerate_from 0 registers.now)) }
{
    for (at, register) in registers.iter().enumerate() {
        put_outputs(pen, out, sight, tables, at, register);
    }
}

fn put_rows<K: Sink>(pen: &mut Pen, out: &mut K, sight: &Sight<'_>, tables: &Tables)
    ensures { Writes (at (K.told out.old) (K.faults out.old) pen.old) (at (K.told out.new) (K.faults out.new) pen.new) (spec.all_rows sight.now tables.now) }
{
    let block = sight.block;
    put_regs(pen, out, sight, tables, &block.regs.items);
}

fn put_interrupts_head<K: Sink>(pen: &mut Pen, out: &mut K)
    ensures { Writes (at (K.told out.old) (K.faults out.old) pen.old) (at (K.told out.new) (K.faults out.new) pen.new) spec.interrupts_head }
{
    put(
        pen,
        out,
        b"<h2>Interrupts</h2>\n<div class=\"wide\">\n<table>\n<tr><th scope=\"col\">Output</th><th scope=\"col\">Is 1 where a bit is 1 of</th><th scope=\"col\">Leads to</th></tr>\n",
    );
}

fn put_table<K: Sink>(pen: &mut Pen, out: &mut K, sight: &Sight<'_>, tables: &Tables)
    ensures { Writes (at (K.told out.old) (K.faults out.old) pen.old) (at (K.told out.new) (K.faults out.new) pen.new) (spec.interrupts_table sight.now tables.now) }
{
    put_interrupts_head(pen, out);
    put_rows(pen, out, sight, tables);
    put(pen, out, b"</table>\n</div>\n");
}

fn has_interrupts(block: &Block) -> bool
    ensures { result ≡ list_any (λ r. r.intr) block.now.regs }
{
    block.regs.items.iter().any(|register| register.intr)
}

/// Writes the table of interrupts, if a register has one.
#[tactic(auto, using(html_text::proofs::Wrote::nothing))]
pub(crate) fn put_interrupts<K: Sink>(
    pen: &mut Pen,
    out: &mut K,
    sight: &Sight<'_>,
    tables: &Tables,
)
    ensures { Writes (at (K.told out.old) (K.faults out.old) pen.old) (at (K.told out.new) (K.faults out.new) pen.new) (spec.interrupts sight.now tables.now) }
{
    if has_interrupts(sight.block) {
        put_table(pen, out, sight, tables);
    }
}
