//! A simulation.
ghost use Rattle.std.specs.Prelude.{◌≡◌, ◌+◌, ◌≤◌, ◌++◌, true, take, drop, length};
ghost use Rattle.cyc_sim.specs.Operations.{are_places, values_in};

use crate::fitting::Unfit;
use crate::narrow_program::NarrowProgram;
use crate::narrow_sim::NarrowSim;
use crate::narrowing::is_narrow;
use crate::operation::settle;
use crate::program::Program;
use rb_base::NoMemory;
use std::alloc::Global;
use v_design::Design;

/// A simulation by a program: the contents of its registers, and room for the values of its nets.
#[derive(Drop)]
pub(crate) struct WideSim {
    pub program: Program,
    pub values: Vec<u128>,
    pub moved: Vec<u128>,
    pub ghost sized: { length values.items ≡ program.total },
    pub ghost moved_sized: { length moved.items ≡ length program.registers.items },
}

/// A simulation over values of at most 128 bits, or of at most 64.
#[derive(Drop)]
pub(crate) enum Engine {
    Wide(WideSim),
    Narrow(NarrowSim),
}

/// A simulation of a module.
#[derive(Drop)]
pub struct Sim {
    engine: Engine,
}

/// Writes numbers over the values from a place on.
fn put(values: &mut [u128], at: usize, numbers: &[u128])
    requires { at + length numbers.now ≤ length values.old }
    ensures { values.new ≡ take at values.old ++ (numbers.now ++ drop (at + length numbers.now) values.old) }
{
    for (index, number) in numbers.iter().enumerate() {
        values[at + index] = *number;
    }
}

/// Reads the values at places.
fn read(values: &[u128], places: &[usize], into: &mut [u128])
    requires within { are_places (length values.now) places.now ≡ true }
    requires sized { length into.old ≡ length places.now }
    ensures { into.new ≡ values_in values.now places.now }
{
    for (index, place) in places.iter().enumerate() {
        into[index] = values[*place];
    }
}

impl WideSim {
    ghost use Rattle.std.specs.Prelude.{◌≡◌, length, IfOk};
    ghost use Rattle.v_design.specs.Expr.{Values};
    ghost use Rattle.v_design.specs.Design.{Module, inputs, registers};
    ghost use Rattle.v_design.specs.Run.{values_at};
    ghost use Rattle.v_design.specs.Fits.{FitsPins};
    ghost use Rattle.cyc_sim.specs.Simulation.{IsWideOf, StepsTo, held_wide};

    /// A simulation of a program, the registers of which contain these numbers.
    fn new(alloc: Global, program: Program, start: &[u128]) -> Result<WideSim, NoMemory>
        requires { length start.now ≡ length program.registers.items }
        ensures program { IfOk result (λ s. s.program ≡ program) }
        ensures start { IfOk result (λ s. held_wide s ≡ start.now) }
    {
        let mut values = vec![in alloc; 0; program.total]?;
        let moved = vec![in alloc; 0; program.registers.len()]?;
        put(&mut values, program.inputs, start);
        Ok(WideSim {
            program,
            values,
            moved,
        })
    }

    /// As `Sim::step`.
    fn step(&mut self, pins: &[u128], outs: &mut [u128])
        requires pins { length pins.now ≡ self.old.program.inputs }
        requires outs { length outs.old ≡ length self.old.program.outputs.items }
        ensures edge { (m : Module) → IsWideOf m self.old → FitsPins (inputs m) pins.now
            → (contents : Values) → values_at contents (registers m) ≡ held_wide self.old
            → StepsTo m contents pins.now outs.new (held_wide self.new) × IsWideOf m self.new }
    {
        let first = self.program.inputs + self.program.registers.len();
        put(&mut self.values, 0, pins);
        settle(&self.program.operations, first, &mut self.values);
        read(&self.values, &self.program.outputs, outs);
        read(&self.values, &self.program.registers, &mut self.moved);
        put(&mut self.values, self.program.inputs, &self.moved);
    }
}

impl Engine {
    ghost use Rattle.std.specs.Prelude.{◌≡◌, IfOk};
    ghost use Rattle.v_design.specs.Design.{registers};
    ghost use Rattle.v_design.specs.Seen.{module_seen};
    ghost use Rattle.v_design.specs.Fits.{FitsPins};
    ghost use Rattle.cyc_sim.specs.Simulation.{IsEngineOf, IsNarrowProgramOf, IsProgramOf, held_in};

    fn wide(
        alloc: Global,
        design: &Design,
        program: Program,
        start: &[u128],
    ) -> Result<Engine, NoMemory>
        requires program { IsProgramOf (module_seen design.now) program }
        requires start { FitsPins (registers (module_seen design.now)) start.now }
        ensures simulates { IfOk result (IsEngineOf (module_seen design.now)) }
        ensures start { IfOk result (λ e. held_in e ≡ start.now) }
    {
        let sim = WideSim::new(alloc, program, start)?;
        Ok(Engine::Wide(sim))
    }

    fn narrow(
        alloc: Global,
        design: &Design,
        program: NarrowProgram,
        start: &[u128],
    ) -> Result<Engine, NoMemory>
        requires program { IsNarrowProgramOf (module_seen design.now) program }
        requires start { FitsPins (registers (module_seen design.now)) start.now }
        ensures simulates { IfOk result (IsEngineOf (module_seen design.now)) }
        ensures start { IfOk result (λ e. held_in e ≡ start.now) }
    {
        let sim = NarrowSim::new(alloc, program, start)?;
        Ok(Engine::Narrow(sim))
    }

    /// The simulation of a module's program, over values of at most 64 bits where it has no others.
    fn new(
        alloc: Global,
        design: &Design,
        program: Program,
        start: &[u128],
    ) -> Result<Engine, NoMemory>
        requires program { IsProgramOf (module_seen design.now) program }
        requires start { FitsPins (registers (module_seen design.now)) start.now }
        ensures simulates { IfOk result (IsEngineOf (module_seen design.now)) }
        ensures start { IfOk result (λ e. held_in e ≡ start.now) }
    {
        if !is_narrow(design) {
            return Engine::wide(alloc, design, program, start);
        }
        match NarrowProgram::of(alloc, &program) {
            Ok(narrow) => Engine::narrow(alloc, design, narrow, start),
            Err(Unfit::Wide) => Engine::wide(alloc, design, program, start),
            Err(Unfit::NoMemory(refused)) => Err(refused),
        }
    }
}

impl Sim {
    ghost use Rattle.std.specs.Prelude.{◌≡◌, length, IfOk};
    ghost use Rattle.v_design.specs.Expr.{Values};
    ghost use Rattle.v_design.specs.Design.{Module, inputs, registers};
    ghost use Rattle.v_design.specs.Seen.{module_seen};
    ghost use Rattle.v_design.specs.Run.{values_at};
    ghost use Rattle.v_design.specs.Fits.{FitsPins};
    ghost use Rattle.cyc_sim.specs.Accepted.{IsAccepted};
    ghost use Rattle.cyc_sim.specs.Simulation.{IsSimOf, StepsTo, held, input_count, output_count};

    /// A simulation of an accepted module, the registers of which contain these numbers, in order of declaration. The only
    /// error is want of memory.
    pub fn new(alloc: Global, design: &Design, start: &[u128]) -> Result<Sim, NoMemory>
        requires accepted { IsAccepted (module_seen design.now) }
        requires start { FitsPins (registers (module_seen design.now)) start.now }
        ensures simulates { IfOk result (IsSimOf (module_seen design.now)) }
        ensures start { IfOk result (λ s. held s ≡ start.now) }
    {
        let program = Program::new(alloc, design)?;
        let engine = Engine::new(alloc, design, program, start)?;
        Ok(Sim { engine })
    }

    /// One rising edge of the clock. The pins are the numbers of the module's inputs without PCLK, and `outs` takes
    /// those of its outputs at the edge, each in order of declaration. After it the registers contain what the edge
    /// gave them. It takes no memory.
    pub fn step(&mut self, pins: &[u128], outs: &mut [u128])
        requires pins { length pins.now ≡ input_count self.old }
        requires outs { length outs.old ≡ output_count self.old }
        ensures edge { (m : Module) → IsSimOf m self.old → FitsPins (inputs m) pins.now
            → (contents : Values) → values_at contents (registers m) ≡ held self.old
            → StepsTo m contents pins.now outs.new (held self.new) × IsSimOf m self.new }
    {
        match &mut self.engine {
            Engine::Wide(sim) => sim.step(pins, outs),
            Engine::Narrow(sim) => sim.step(pins, outs),
        }
    }
}
