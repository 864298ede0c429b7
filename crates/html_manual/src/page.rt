//! The page: what is looked up while it is written, and its writing.

ghost use Rattle.std.specs.Prelude.{◌≡◌, [], IfOk, false};
ghost use Rattle.html_manual.specs.Enumerations.{enumerations};
ghost use Rattle.html_manual.specs.Groups.{groups};
ghost use Rattle.html_manual.specs.Interrupts.{interrupts};
ghost use Rattle.html_manual.specs.Page as spec;
ghost use Rattle.html_text.specs.Writing.{Writes, at};
ghost use Rattle.manual_sections.specs.Sections.{addresses, sections};
ghost use Rattle.rb_edge.specs.Flows.{Flows};
ghost use Rattle.rb_model.specs.Sound.{IsSound};

use crate::addresses::put_addresses;
use crate::enumerations::put_enumerations;
use crate::groups::put_groups;
use crate::head::{put_head, put_top_texts};
use crate::interrupts::put_interrupts;
use crate::signals::put_signals;
use crate::tables::{Tables, tables_of};
use block_effects::Notes;
use encodings::Encodings;
use html_text::{Pen, finish, new_pen, put};
use manual_sections::{WordUnit, put_sections};
use manual_units::{field_marks, lots_of, reg_marks, units_of};
use manual_words::Sight;
use rb_base::{NoMemory, Text};
use rb_edge::{Failed, Sink};
use rb_model::Block;
use std::alloc::Global;
use std::marker::Model;

/// The manual of a block, ready to be written: with what has sections, the marks of fields and registers by their numbers, and the
/// tables of interrupts.
#[derive(Drop)]
pub struct Manual<'m> {
    block: Block,
    notes: Notes<'m>,
    encodings: Encodings<'m>,
    units: Vec<WordUnit>,
    fields: Vec<Text>,
    regs: Vec<Text>,
    tables: Tables,
}

impl<'m> Model for Manual<'m> {
    ghost use Rattle.html_manual.specs.Page.{Planned};

    ghost Value = { Planned };

    ghost view = { λ m. record { block = m.block; notes = m.notes; encodings = m.encodings; plan = record { units = m.units.items; fields = m.fields.items; regs = m.regs.items; tables = m.tables } } };
}

fn far_sight<'s>(manual: &'s Manual<'s>) -> Sight<'s>
    ensures { result ≡ spec.far_sight manual.now.block manual.now.encodings manual.now.plan }
{
    Sight {
        block: &manual.block,
        own: &[],
        named: false,
        fields: &manual.fields,
        regs: &manual.regs,
        encodings: &manual.encodings,
    }
}

fn put_all_addresses<K: Sink>(pen: &mut Pen, out: &mut K, manual: &Manual<'_>)
    ensures { Writes (at (K.told out.old) (K.faults out.old) pen.old) (at (K.told out.new) (K.faults out.new) pen.new) (addresses manual.now.block manual.now.notes.regs manual.now.encodings manual.now.plan.fields manual.now.plan.regs manual.now.plan.units) }
{
    put_addresses(
        pen,
        out,
        &manual.block,
        &manual.notes.regs,
        &manual.encodings,
        &manual.fields,
        &manual.regs,
        &manual.units,
    );
}

fn put_all_sections<K: Sink>(pen: &mut Pen, out: &mut K, manual: &Manual<'_>)
    ensures { Writes (at (K.told out.old) (K.faults out.old) pen.old) (at (K.told out.new) (K.faults out.new) pen.new) (sections manual.now.block manual.now.notes manual.now.encodings manual.now.plan.fields manual.now.plan.regs manual.now.plan.units) }
{
    put_sections(
        pen,
        out,
        &manual.block,
        &manual.notes,
        &manual.encodings,
        &manual.fields,
        &manual.regs,
        &manual.units,
    );
}

fn put_registers<K: Sink>(pen: &mut Pen, out: &mut K, manual: &Manual<'_>)
    ensures { Writes (at (K.told out.old) (K.faults out.old) pen.old) (at (K.told out.new) (K.faults out.new) pen.new) (spec.registers manual.now.block manual.now.notes manual.now.encodings manual.now.plan) }
{
    put_all_addresses(pen, out, manual);
    put_all_sections(pen, out, manual);
}

fn put_all_groups<K: Sink>(pen: &mut Pen, out: &mut K, manual: &Manual<'_>)
    ensures { Writes (at (K.told out.old) (K.faults out.old) pen.old) (at (K.told out.new) (K.faults out.new) pen.new) (groups (spec.far_sight manual.now.block manual.now.encodings manual.now.plan) manual.now.notes.groups) }
{
    put_groups(pen, out, &far_sight(manual), &manual.notes.groups);
}

fn put_all_interrupts<K: Sink>(pen: &mut Pen, out: &mut K, manual: &Manual<'_>)
    ensures { Writes (at (K.told out.old) (K.faults out.old) pen.old) (at (K.told out.new) (K.faults out.new) pen.new) (interrupts (spec.far_sight manual.now.block manual.now.encodings manual.now.plan) manual.now.plan.tables) }
{
    put_interrupts(pen, out, &far_sight(manual), &manual.tables);
}

fn put_all_signals<K: Sink>(pen: &mut Pen, out: &mut K, manual: &Manual<'_>)
    ensures { Writes (at (K.told out.old) (K.faults out.old) pen.old) (at (K.told out.new) (K.faults out.new) pen.new) (spec.signals manual.now.notes.signals manual.now.block.signals) }
{
    put_signals(pen, out, &manual.notes.signals, &manual.block.signals.items);
}

fn put_outputs<K: Sink>(pen: &mut Pen, out: &mut K, manual: &Manual<'_>)
    ensures { Writes (at (K.told out.old) (K.faults out.old) pen.old) (at (K.told out.new) (K.faults out.new) pen.new) (spec.outputs manual.now.block manual.now.notes manual.now.encodings manual.now.plan) }
{
    put_all_interrupts(pen, out, manual);
    put_all_signals(pen, out, manual);
}

fn put_all_enumerations<K: Sink>(pen: &mut Pen, out: &mut K, manual: &Manual<'_>)
    ensures { Writes (at (K.told out.old) (K.faults out.old) pen.old) (at (K.told out.new) (K.faults out.new) pen.new) (enumerations (spec.far_sight manual.now.block manual.now.encodings manual.now.plan) manual.now.notes.enums) }
{
    put_enumerations(pen, out, &far_sight(manual), &manual.notes.enums);
}

fn put_named_head<K: Sink>(pen: &mut Pen, out: &mut K, manual: &Manual<'_>)
    ensures { Writes (at (K.told out.old) (K.faults out.old) pen.old) (at (K.told out.new) (K.faults out.new) pen.new) (spec.head manual.now.block.name) }
{
    put_head(pen, out, &manual.block.name.bytes);
}

fn put_about<K: Sink>(pen: &mut Pen, out: &mut K, manual: &Manual<'_>)
    ensures { Writes (at (K.told out.old) (K.faults out.old) pen.old) (at (K.told out.new) (K.faults out.new) pen.new) (spec.top_texts manual.now.notes.top) }
{
    put_top_texts(pen, out, &manual.notes.top);
}

fn put_page<K: Sink>(pen: &mut Pen, out: &mut K, manual: &Manual<'_>)
    ensures { Writes (at (K.told out.old) (K.faults out.old) pen.old) (at (K.told out.new) (K.faults out.new) pen.new) (spec.text_of manual.now) }
{
    put_named_head(pen, out, manual);
    put_about(pen, out, manual);
    put_registers(pen, out, manual);
    put_all_groups(pen, out, manual);
    put_outputs(pen, out, manual);
    put_all_enumerations(pen, out, manual);
    put(pen, out, b"</body>\n</html>\n");
}

impl Manual<'_> {
    /// Writes the page, whose text the model states. The only error is that the sink fails.
    pub fn write<K: Sink>(&self, out: &mut K) -> Result<(), Failed>
        ensures { Flows (K.told out.old) (K.told out.new) (K.faults out.old) (K.faults out.new) [] [] result (spec.text_of self.now) }
    {
        let mut pen = new_pen();
        put_page(&mut pen, out, self);
        finish(&mut pen, out)
    }
}

/// What is looked up while the manual of a sound block is written. The only error is want of memory.
pub fn prepare<'m>(
    alloc: Global,
    block: Block,
    notes: Notes<'m>,
    encodings: Encodings<'m>,
) -> Result<Manual<'m>, NoMemory>
    requires { IsSound block }
    ensures { IfOk result (λ m. spec.text_of m ≡ spec.page block notes.entry encodings.entry) }
{
    let lots = lots_of(alloc, &block, &notes, &encodings)?;
    let fields = field_marks(alloc, &block, &lots)?;
    let regs = reg_marks(alloc, &block, &lots)?;
    let units = units_of(alloc, &block, &lots)?;
    let tables = tables_of(alloc, &block)?;
    Ok(Manual {
        block,
        notes,
        encodings,
        units,
        fields,
        regs,
        tables,
    })
}
