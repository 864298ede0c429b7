//! The run of a module over a table, ready to be written.

ghost use Rattle.std.specs.Prelude.{◌≡◌, ◌<◌, ◌≤◌, ◌-◌, ◌^◌, ◌++◌, length, IfOk, IfErr, OnOk};
ghost use Rattle.v_design.specs.Design.{inputs, registers};
ghost use Rattle.v_design.specs.Seen.{module_seen};
ghost use Rattle.v_design.specs.Run.{values_at};
ghost use Rattle.v_design.specs.Fits.{AllFit};
ghost use Rattle.cyc_sim.specs.Accepted.{IsAccepted};
ghost use Rattle.cyc_sim.specs.Simulation.{IsSimOf, held};
ghost use Rattle.sim_run.specs.Simulated.{zeros, Prevents};
ghost use Rattle.wave_text.specs.Dumped.{run_pins};
ghost use Rattle.wave_text.specs.Ready.{IsAtZeros, IsRunOf};

use crate::writing::put_run;
use cyc_sim::Sim;
use rb_base::{NoMemory, Pin, copy_of};
use rb_edge::{Failed, Page, Sink};
use sim_run::{ReadyRun, SimError, ready};
use std::alloc::Global;
use stim_csv::Stimulus;
use v_design::Design;

/// The run of a module from zeros over a table of pin values, with all the memory that writing it takes.
#[derive(Drop)]
pub struct WaveRun {
    design: Design,
    table: Stimulus,
    pins: Vec<Pin>,
    sim: Sim,
    before: Vec<u128>,
    now: Vec<u128>,
}

/// Adds copies of pins.
fn push_pins(alloc: Global, pins: &mut Vec<Pin>, more: &[Pin]) -> Result<(), NoMemory>
    ensures { OnOk result (pins.new.items ≡ pins.old.items ++ more.now) }
{
    for pin in more {
        let name = copy_of(alloc, &pin.name)?;
        pins.push(Pin {
            name,
            width: pin.width,
        })?;
    }
    Ok(())
}

/// The pins of a module's run: its inputs without PCLK, and then its outputs.
fn pins_of(alloc: Global, design: &Design) -> Result<Vec<Pin>, NoMemory>
    ensures { IfOk result (λ pins. pins.items ≡ run_pins (module_seen design.now)) }
{
    let mut pins = Vec::new(alloc);
    push_pins(alloc, &mut pins, design.inputs())?;
    push_pins(alloc, &mut pins, design.outputs())?;
    Ok(pins)
}

/// A simulation of a module whose registers contain 0.
fn sim_of(alloc: Global, design: &Design) -> Result<Sim, NoMemory>
    requires { IsAccepted (module_seen design.now) }
    ensures simulates { IfOk result (IsSimOf (module_seen design.now)) }
    ensures zeroed { IfOk result (λ s. held s ≡ values_at zeros (registers (module_seen design.now))) }
{
    let start = vec![in alloc; 0u128; design.registers().len()]?;
    Sim::new(alloc, design, &start)
}

/// The run of a module and a table that were read.
fn run_of(alloc: Global, run: ReadyRun) -> Result<WaveRun, NoMemory>
    requires accepted { IsAccepted (module_seen run.design) }
    requires fit { AllFit (inputs (module_seen run.design)) run.table }
    requires few { length run.table ≤ 1000000 }
    ensures ready { IfOk result IsAtZeros }
    ensures design { IfOk result (λ r. r.design ≡ run.design) }
    ensures table { IfOk result (λ r. r.table ≡ run.table) }
{
    let ReadyRun { design, table } = run;
    let pins = pins_of(alloc, &design)?;
    let sim = sim_of(alloc, &design)?;
    let before = vec![in alloc; 0u128; pins.len()]?;
    let now = vec![in alloc; 0u128; pins.len()]?;
    Ok(WaveRun {
        design,
        table,
        pins,
        sim,
        before,
        now,
    })
}

/// The run of the module that the first bytes are, fewer than 2^32 - 1, over the table that the second ones are. The errors
/// are those of [`sim_run::simulate`].
pub fn prepare(alloc: Global, verilog: &[u8], stimulus: &[u8]) -> Result<WaveRun, SimError>
    requires { length verilog.now < 2 ^ 32 - 1 }
    ensures ready { IfOk result IsAtZeros }
    ensures of { IfOk result (IsRunOf verilog.now stimulus.now) }
    ensures err { IfErr result (Prevents verilog.now stimulus.now) }
{
    let run = match ready(alloc, verilog, stimulus) {
        Ok(run) => run,
        Err(error) => return Err(error),
    };
    match run_of(alloc, run) {
        Ok(run) => Ok(run),
        Err(_) => Err(SimError::NoMemory),
    }
}

impl WaveRun {
    ghost use Rattle.std.specs.Prelude.{◌≡◌, ◌≤◌, List, ℕ, MatchResult, OnErr};
    ghost use Rattle.rb_edge.specs.Count.{Rose};
    ghost use Rattle.rb_edge.specs.Sink.{Takes, TakesPart};
    ghost use Rattle.wave_text.specs.Ready.{IsAtZeros, IsDumpOf};

    /// Writes the dump of the run: its head, and the values of its pins at each edge. It takes no memory.
    ///
    /// The bytes wait on a page of 64 KiB, on the stack. [`Failed`] comes only where the sink's count of faults rose. Then a
    /// proper prefix of the dump was taken, and nothing else. The simulation stands at its end afterwards, so a run is written
    /// once.
    pub fn write<K: Sink>(&mut self, out: &mut K) -> Result<(), Failed>
        requires { IsAtZeros self.old }
        ensures written { (text : List ℕ) × IsDumpOf self.old text × MatchResult result
            (λ _. Takes (K.told out.old) (K.told out.new) text)
            (λ _. TakesPart (K.told out.old) (K.told out.new) text) }
        ensures later { K.faults out.old ≤ K.faults out.new }
        ensures failed { OnErr result (Rose (K.faults out.old) (K.faults out.new)) }
    {
        let mut page = Page::new();
        put_run(
            &mut page,
            out,
            &self.design,
            &self.pins,
            &self.table,
            &mut self.sim,
            &mut self.before,
            &mut self.now,
        )?;
        page.flush(out)
    }
}
