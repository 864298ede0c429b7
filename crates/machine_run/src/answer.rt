//! A block and the bytes of a table, to a run.

ghost use Rattle.std.specs.Prelude.{◌≡◌, ◌≤◌, ◌^◌, Ok, IfOk, IfErr, OnErr};
ghost use Rattle.rb_model.specs.Ports.{input_pins};
ghost use Rattle.rb_model.specs.Sound.{IsSound};
ghost use Rattle.machine_run.specs.Runs.{IsRunOf, Prevents, output_pins, table_for as table_of_bytes};

use crate::error::RunError;
use crate::pins::{Pins, pins_of};
use crate::running::machine_text;
use rb_base::NoMemory;
use rb_model::Block;
use report_text::problem_text;
use std::alloc::Global;
use stim_csv::Stimulus;

/// The run of a block's register machine from zeros over a table of pin values, as text: the names of its outputs, in port
/// order, as a line, and for each vector a line of their numbers.
///
/// The table is judged first, for all inputs but PCLK, and then all of its rows by the bus protocol (IHI 0024B), before anything
/// is run. The text of `RunError::Stimulus` tells the first problem of the table, and `RunError::Protocol` the first row that
/// breaks the protocol. Want of memory may be answered in place of anything, and then there is no text.
pub fn run_machine(alloc: Global, block: &Block, stimulus: &[u8]) -> Result<Vec<u8>, RunError>
    requires { IsSound block.now }
    ensures ok { IfOk result (λ text. IsRunOf block.now stimulus.now text.items) }
    ensures err { IfErr result (Prevents block.now stimulus.now) }
{
    let pins = pins_of(alloc, block)?;
    let table = match table_for(alloc, block, &pins, stimulus) {
        Ok(table) => table,
        Err(error) => return Err(error),
    };
    match table.protocol(block.waits) {
        Some(row) => Err(RunError::Protocol(row)),
        None => Ok(machine_text(alloc, block, &pins.outputs, &table)?),
    }
}

/// How many outputs a block has. The only error is a count at or above 2^32.
fn count(outputs: usize) -> Result<u32, NoMemory>
    ensures is { IfOk result (λ n. n ≡ outputs) }
    ensures over { OnErr result (2 ^ 32 ≤ outputs) }
{
    // A list of so many pins would have ended memory long before.
    match u32::try_from(outputs) {
        Ok(number) => Ok(number),
        Err(_) => Err(NoMemory),
    }
}

/// The table for the inputs of a sound block, whose pins these are.
fn table_for(
    alloc: Global,
    block: &Block,
    pins: &Pins,
    stimulus: &[u8],
) -> Result<Stimulus, RunError>
    requires sound { IsSound block.now }
    requires inputs { pins.now.inputs.items ≡ input_pins block.now }
    requires outputs { pins.now.outputs.items ≡ output_pins block.now }
    ensures ok { IfOk result (λ s. table_of_bytes block.now stimulus.now ≡ Ok s) }
    ensures err { IfErr result (Prevents block.now stimulus.now) }
{
    let outputs = count(pins.outputs.len())?;
    let problem = match Stimulus::read(alloc, stimulus, &pins.inputs, outputs) {
        Ok(table) => return Ok(table),
        Err(problem) => problem,
    };
    match problem_text(alloc, &pins.inputs, problem) {
        Ok(text) => Err(RunError::Stimulus(text)),
        Err(_) => Err(RunError::NoMemory),
    }
}
