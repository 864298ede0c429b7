//! A simulation of a module whose values have at most 64 bits.
ghost use Rattle.std.specs.Prelude.{◌≡◌, ◌+◌, ◌≤◌, ◌%◌, ◌^◌, ◌++◌, true, take, drop, length};
ghost use Rattle.cyc_sim.specs.Operations.{are_places, values_in};
ghost use Rattle.cyc_sim.specs.Narrow.{low_all};

use crate::narrow_program::NarrowProgram;
use rb_base::NoMemory;
use sim_lanes::{Schedule, put_narrow};
use std::alloc::Global;

/// As `WideSim`, of a narrow program.
#[derive(Drop)]
pub(crate) struct NarrowSim {
    pub program: NarrowProgram,
    pub values: Vec<u64>,
    /// Which operations are due.
    pub schedule: Schedule,
    /// Room for the pins of an edge, and for what the registers move to.
    pub taken: Vec<u64>,
    pub moved: Vec<u64>,
    pub ghost sized: { length values.items ≡ program.total },
    pub ghost taken_sized: { length taken.items ≡ program.inputs },
    pub ghost moved_sized: { length moved.items ≡ length program.registers.items },
}

/// The lowest 64 bits of a number.
fn low(number: u128) -> u64
    ensures { result ≡ number % 2 ^ 64 }
{
    (number % (1 << 64)) as u64
}

/// Writes the lowest bits of numbers over the values from a place on.
fn put_low(values: &mut [u64], at: usize, numbers: &[u128])
    requires { at + length numbers.now ≤ length values.old }
    ensures { values.new ≡ take at values.old ++ (low_all numbers.now ++ drop (at + length (low_all numbers.now)) values.old) }
{
    for (index, number) in numbers.iter().enumerate() {
        values[at + index] = low(*number);
    }
}

/// Reads the values at places.
fn read_wide(values: &[u64], places: &[u32], into: &mut [u128])
    requires within { are_places (length values.now) places.now ≡ true }
    requires sized { length into.old ≡ length places.now }
    ensures { into.new ≡ values_in values.now places.now }
{
    for (index, place) in places.iter().enumerate() {
        into[index] = u128::from(values[*place as usize]);
    }
}

/// Reads the values at places.
fn read_narrow(values: &[u64], places: &[u32], into: &mut [u64])
    requires within { are_places (length values.now) places.now ≡ true }
    requires sized { length into.old ≡ length places.now }
    ensures { into.new ≡ values_in values.now places.now }
{
    for (index, place) in places.iter().enumerate() {
        into[index] = values[*place as usize];
    }
}

impl NarrowSim {
    ghost use Rattle.std.specs.Prelude.{◌≡◌, ◌+◌, length, take, drop, IfOk};
    ghost use Rattle.v_design.specs.Expr.{Values};
    ghost use Rattle.v_design.specs.Design.{Module, inputs, registers};
    ghost use Rattle.v_design.specs.Run.{values_at};
    ghost use Rattle.v_design.specs.Fits.{FitsPins};
    ghost use Rattle.cyc_sim.specs.Narrow.{low_all};
    ghost use Rattle.cyc_sim.specs.Simulation.{IsNarrowOf, StepsTo, constants_in, held_narrow};
    ghost use Rattle.sim_lanes.specs.Schedules.{IsSchedule};

    /// A simulation of a narrow program, the registers of which contain these numbers.
    pub fn new(alloc: Global, program: NarrowProgram, start: &[u128]) -> Result<NarrowSim, NoMemory>
        requires { length start.now ≡ length program.registers.items }
        ensures program { IfOk result (λ s. s.program ≡ program) }
        ensures start { IfOk result (λ s. held_narrow s ≡ low_all start.now) }
        ensures constants { IfOk result (λ s. constants_in s ≡ program.constants.items) }
        ensures schedule { IfOk result (λ s. IsSchedule s.schedule s.program.limit s.program.operations.items s.values.items) }
    {
        let schedule = Schedule::new(alloc, &program.operations, program.total)?;
        let mut values = vec![in alloc; 0; program.total]?;
        let taken = vec![in alloc; 0; program.inputs]?;
        let moved = vec![in alloc; 0; program.registers.len()]?;
        let first = program.inputs + program.registers.len();
        put_narrow(&mut values, first, &program.constants);
        put_low(&mut values, program.inputs, start);
        Ok(NarrowSim {
            program,
            values,
            schedule,
            taken,
            moved,
        })
    }

    /// As `Sim::step`.
    pub fn step(&mut self, pins: &[u128], outs: &mut [u128])
        requires pins { length pins.now ≡ self.old.program.inputs }
        requires outs { length outs.old ≡ length self.old.program.outputs.items }
        ensures edge { (m : Module) → IsNarrowOf m self.old → FitsPins (inputs m) pins.now
            → (contents : Values) → values_at contents (registers m) ≡ held_narrow self.old
            → StepsTo m contents pins.now outs.new (held_narrow self.new) × IsNarrowOf m self.new }
    {
        put_low(&mut self.taken, 0, pins);
        self.schedule.take(&mut self.values, 0, &self.taken);
        self.schedule.settle(
            &self.program.runs,
            &self.program.operations,
            self.program.limit,
            &mut self.values,
        );
        read_wide(&self.values, &self.program.outputs, outs);
        read_narrow(&self.values, &self.program.registers, &mut self.moved);
        self.schedule
            .put(&mut self.values, self.program.inputs, &self.moved);
    }
}
