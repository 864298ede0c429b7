//! A module and a table, from their bytes to a run.

ghost use Rattle.std.specs.Prelude.{◌≡◌, ◌<◌, ◌≤◌, ◌-◌, ◌^◌, ◌⊎◌, length, Ok, Err, IfOk, IfErr};
ghost use Rattle.v_design.specs.Design.{inputs, outputs};
ghost use Rattle.v_design.specs.Seen.{module_seen};
ghost use Rattle.stim_csv.specs.PinTable.{table_of, records_of};
ghost use Rattle.v_reader.specs.Reading.{IsDesign};
ghost use Rattle.report_text.specs.Problems.{problem_text as problem_words};
ghost use Rattle.sim_run.specs.Simulated.{IsReady, IsSimulated, IsProblem, Prevents};

use crate::error::SimError;
use crate::running::module_run;
use report_text::problem_text;
use std::alloc::Global;
use stim_csv::Stimulus;
use v_design::Design;
use v_reader::read;
use v_syntax::VError;

/// A module that was read, and a table of values for its inputs.
#[derive(Drop)]
pub struct ReadyRun {
    pub design: Design,
    pub table: Stimulus,
}

/// The module of these bytes, fewer than 2^32 - 1, and the table of the others for its inputs. [`SimError::Verilog`] comes
/// exactly where the first are no well-formed module, and [`SimError::Stimulus`] where they are one and the others are no
/// table for it.
pub fn ready(alloc: Global, verilog: &[u8], stimulus: &[u8]) -> Result<ReadyRun, SimError>
    requires { length verilog.now < 2 ^ 32 - 1 }
    ensures ok { IfOk result (λ r. IsReady verilog.now stimulus.now (module_seen r.design) r.table) }
    ensures err { IfErr result (Prevents verilog.now stimulus.now) }
{
    let design = match read(alloc, verilog) {
        Ok(design) => design,
        Err(VError::NoMemory) => return Err(SimError::NoMemory),
        Err(error) => return Err(SimError::Verilog(error)),
    };
    match table(alloc, verilog, &design, stimulus) {
        Ok(table) => Ok(ReadyRun { design, table }),
        Err(error) => Err(error),
    }
}

/// The run of a module from zeros over a table of pin values, as text: the names of its outputs as a line, and a line of
/// numbers for each vector. The bytes of the module are fewer than 2^32 - 1. After want of memory there is no text.
pub fn simulate(alloc: Global, verilog: &[u8], stimulus: &[u8]) -> Result<Vec<u8>, SimError>
    requires { length verilog.now < 2 ^ 32 - 1 }
    ensures ok { IfOk result (λ text. IsSimulated verilog.now stimulus.now text.items) }
    ensures err { IfErr result (Prevents verilog.now stimulus.now) }
{
    let run = match ready(alloc, verilog, stimulus) {
        Ok(run) => run,
        Err(error) => return Err(error),
    };
    match module_run(alloc, &run.design, &run.table) {
        Ok(text) => Ok(text),
        Err(_) => Err(SimError::NoMemory),
    }
}

// The table for the inputs of a module that was read.
fn table(
    alloc: Global,
    verilog: &[u8],
    design: &Design,
    stimulus: &[u8],
) -> Result<Stimulus, SimError>
    requires small { length verilog.now < 2 ^ 32 - 1 }
    requires few { length design.now.ports.items ≤ length verilog.now }
    requires is { IsDesign verilog.now design.now }
    ensures ok { IfOk result (λ s. table_of (inputs (module_seen design.now)) (length (outputs (module_seen design.now))) (records_of stimulus.now) ≡ Ok s) }
    ensures err { IfErr result (Prevents verilog.now stimulus.now) }
{
    let outputs = design.outputs().len() as u32;
    let problem = match Stimulus::read(alloc, stimulus, design.inputs(), outputs) {
        Ok(table) => return Ok(table),
        Err(problem) => problem,
    };
    match problem_text(alloc, design.inputs(), problem) {
        Ok(text) => Err(SimError::Stimulus(text)),
        Err(_) => Err(SimError::NoMemory),
    }
}
