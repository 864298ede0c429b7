//! The names of a block.

ghost use Rattle.std.specs.Prelude.{◌≡◌, ◌+◌, ◌≤◌, IfOk, OnOk, length};
ghost use Rattle.rb_model.specs.declared.block.Block.{Block};
ghost use Rattle.rb_model.specs.Ports.{input_pins};
ghost use Rattle.machine_run.specs.Runs.{output_pins};
ghost use Rattle.drive_names.specs.Named as named;
ghost use Rattle.drive_names.specs.Names.{AreNamesOf, IsPut, IsTableOf};

use crate::table::{Meaning, Table};
use crate::words::Named;
use machine_run::Pins;
use rb_base::{NoMemory, Pin};
use std::alloc::Global;

/// What the names of words, of inputs and of outputs mean. The pins of the bus have no meaning.
#[derive(Drop)]
pub struct Names<'n> {
    /// Words by their registers' paths.
    pub words: Table<'n>,
    /// Inputs behind the bus's, by their places among these.
    pub inputs: Table<'n>,
    /// Outputs behind the bus's, by their places among all outputs.
    pub outputs: Table<'n>,
}

/// Gives a word's name its meaning, where it has none yet.
fn put_word<'n>(table: &mut Table<'n>, word: &'n Named) -> Result<(), NoMemory>
    ensures { OnOk result (IsPut word.now.name word.now.meaning table.old table.new) }
{
    table.put(&word.name.bytes, word.meaning)
}

/// Gives a pin's name its place and width as its meaning, where it has none yet.
fn put_pin<'n>(table: &mut Table<'n>, pin: &'n Pin, at: u32) -> Result<(), NoMemory>
    ensures { OnOk result (IsPut pin.now.name (record { at = at; width = pin.now.width }) table.old table.new) }
{
    let meaning = Meaning {
        at,
        width: pin.width,
    };
    table.put(&pin.name.bytes, meaning)
}

/// The place behind a place. The only error is want of memory.
fn next(place: u32) -> Result<u32, NoMemory>
    ensures { IfOk result (λ r. r ≡ place + 1) }
{
    // A list of so many pins would have ended memory long before.
    match place.checked_add(1) {
        Some(place) => Ok(place),
        None => Err(NoMemory),
    }
}

/// The table of words under their names.
fn word_table<'n>(alloc: Global, words: &'n [Named]) -> Result<Table<'n>, NoMemory>
    ensures { IfOk result (IsTableOf words.now) }
{
    let mut table = Table::new(alloc);
    for word in words {
        put_word(&mut table, word)?;
    }
    Ok(table)
}

/// The table of pins under their names, whose places count from `first`.
fn pin_table<'n>(alloc: Global, pins: &'n [Pin], first: u32) -> Result<Table<'n>, NoMemory>
    ensures { IfOk result (IsTableOf (named.named_pins first pins.now)) }
{
    let mut table = Table::new(alloc);
    let mut at = first;
    for pin in pins {
        put_pin(&mut table, pin, at)?;
        at = next(at)?;
    }
    Ok(table)
}

/// The names of a block, of whose words and pins these are the lists. The only error is want of memory.
pub fn names_of<'n>(
    alloc: Global,
    words: &'n [Named],
    pins: &'n Pins,
) -> Result<Names<'n>, NoMemory>
    requires inputs { 6 ≤ length pins.now.inputs.items }
    requires outputs { 3 ≤ length pins.now.outputs.items }
    ensures { (b : Block) → words.now ≡ named.named_words b → pins.now.inputs.items ≡ input_pins b → pins.now.outputs.items ≡ output_pins b → IfOk result (AreNamesOf b) }
{
    let inputs = pin_table(alloc, &pins.inputs[6..], 0)?;
    let outputs = pin_table(alloc, &pins.outputs[3..], 3)?;
    Ok(Names {
        words: word_table(alloc, words)?,
        inputs,
        outputs,
    })
}
