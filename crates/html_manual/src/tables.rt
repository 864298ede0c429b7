//! Which fields have to do with the outputs of each register.

ghost use Rattle.std.specs.Prelude.{◌≡◌, ◌<◌, ◌++◌, ◌∷◌, [], IfOk, OnOk, Some, get_or, length, replicate, slice_set};
ghost use Rattle.rb_model.specs.Items as items;
ghost use Rattle.html_manual.specs.Filing.{added, field_added, tables_among};
ghost use Rattle.html_manual.specs.Interrupts as spec;

use rb_base::NoMemory;
use rb_effects::is_interrupt;
use rb_model::{Block, Feed, Field, RefItem};
use std::alloc::Global;
use std::marker::Model;
use word_groups::Numbers;

/// For each register numbers of fields.
#[derive(Drop)]
pub(crate) struct Filed {
    pub items: Vec<Numbers>,
}

impl Model for Filed {
    ghost use Rattle.std.specs.Prelude.{List, ℕ};

    ghost Value = { List (List ℕ) };

    ghost view = { λ all. all.items.items };
}

/// For each register the fields that count for its interrupt, and those whose input is its output `intr` or `halt`.
#[derive(Drop)]
pub(crate) struct Tables {
    pub counted: Filed,
    pub intr_users: Filed,
    pub halt_users: Filed,
}

fn counts_for(field: &Field) -> Option<u32>
    ensures { result ≡ spec.counts_for field.now }
{
    if is_interrupt(field.latch) {
        Some(field.reg)
    } else {
        None
    }
}

fn intr_of(item: RefItem) -> Option<u32>
    ensures { result ≡ spec.intr_of item }
{
    match item {
        RefItem::Intr(number) => Some(number),
        _ => None,
    }
}

fn halt_of(item: RefItem) -> Option<u32>
    ensures { result ≡ spec.halt_of item }
{
    match item {
        RefItem::Halt(number) => Some(number),
        _ => None,
    }
}

fn uses_intr(field: &Field) -> Option<u32>
    ensures { result ≡ spec.uses_intr field.now }
{
    match field.source {
        Feed::Off | Feed::Pin => None,
        Feed::Item(item) => intr_of(item),
    }
}

fn uses_halt(field: &Field) -> Option<u32>
    ensures { result ≡ spec.uses_halt field.now }
{
    match field.source {
        Feed::Off | Feed::Pin => None,
        Feed::Item(item) => halt_of(item),
    }
}

fn no_numbers(alloc: Global) -> Numbers
    ensures { result ≡ [] }
{
    Numbers {
        items: Vec::new(alloc),
    }
}

fn none_filed(alloc: Global, count: usize) -> Result<Filed, NoMemory>
    ensures { IfOk result (λ r. r ≡ replicate count []) }
{
    let mut items = Vec::new(alloc);
    for _ in 0..count {
        items.push(no_numbers(alloc))?;
    }
    Ok(Filed { items })
}

fn no_tables(alloc: Global, count: usize) -> Result<Tables, NoMemory>
    ensures { IfOk result (λ r. r ≡ tables_among [] count) }
{
    Ok(Tables {
        counted: none_filed(alloc, count)?,
        intr_users: none_filed(alloc, count)?,
        halt_users: none_filed(alloc, count)?,
    })
}

fn push_number(numbers: &mut Numbers, number: u32) -> Result<(), NoMemory>
    ensures { OnOk result (numbers.new ≡ numbers.old ++ number ∷ []) }
{
    numbers.items.push(number)?;
    Ok(())
}

fn push_at(filed: &mut Filed, place: usize, number: u32) -> Result<(), NoMemory>
    requires { place < length filed.old }
    ensures { OnOk result (filed.new ≡ slice_set filed.old place (get_or filed.old place [] ++ number ∷ [])) }
{
    push_number(&mut filed.items[place], number)
}

fn add(filed: &mut Filed, place: Option<u32>, number: u32) -> Result<(), NoMemory>
    ensures { OnOk result (filed.new ≡ added filed.old place number) }
{
    let Some(place) = place else {
        return Ok(());
    };
    if place as usize >= filed.items.len() {
        return Ok(());
    }
    push_at(filed, place as usize, number)
}

fn add_field(tables: &mut Tables, number: u32, field: &Field) -> Result<(), NoMemory>
    ensures { OnOk result (tables.new ≡ field_added tables.old number field.now) }
{
    add(&mut tables.counted, counts_for(field), number)?;
    add(&mut tables.intr_users, uses_intr(field), number)?;
    add(&mut tables.halt_users, uses_halt(field), number)
}

fn number_of(index: usize) -> Result<u32, NoMemory>
    ensures { IfOk result (λ n. n ≡ index) }
{
    // A list of so many fields would have ended memory long before.
    match u32::try_from(index) {
        Ok(number) => Ok(number),
        Err(_) => Err(NoMemory),
    }
}

/// The tables of a block, made in one pass over its fields. The only error is want of memory.
pub(crate) fn tables_of(alloc: Global, block: &Block) -> Result<Tables, NoMemory>
    ensures { IfOk result (λ r. r ≡ spec.tables block.now) }
{
    let mut tables = no_tables(alloc, block.regs.items.len())?;
    for (at, field) in block.fields.items.iter().enumerate() {
        add_field(&mut tables, number_of(at)?, field)?;
    }
    Ok(tables)
}
