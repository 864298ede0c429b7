//! Compiled modules whose values have at most 64 bits.
ghost use Rattle.std.specs.Prelude.{◌≡◌, ◌+◌, true, length};
ghost use Rattle.sim_lanes.specs.Narrow.{AreBelow};
ghost use Rattle.cyc_sim.specs.Operations.{are_places};

use crate::arrangement::Arrangement;
use crate::fitting::{Unfit, sum_of};
use crate::narrowing::are_below;
use crate::program::Program;
use sim_lanes::{NarrowOperation, Run, are_runs, runs_of};
use std::alloc::Global;

/// As `Program`, where no value has more than 64 bits. Behind the first places are those of the constants.
#[derive(Drop)]
pub(crate) struct NarrowProgram {
    pub inputs: usize,
    pub constants: Vec<u64>,
    pub operations: Vec<NarrowOperation>,
    pub runs: Vec<Run>,
    pub outputs: Vec<u32>,
    pub registers: Vec<u32>,
    /// The place of the first operation.
    pub limit: usize,
    pub total: usize,
    pub ghost front: { limit ≡ inputs + length registers.items + length constants.items },
    pub ghost sized: { total ≡ limit + length operations.items },
    pub ghost below: { AreBelow limit operations.items },
    pub ghost outputs_within: { are_places total outputs.items ≡ true },
    pub ghost registers_within: { are_places total registers.items ≡ true },
}

impl NarrowProgram {
    ghost use Rattle.std.specs.Prelude.{IfOk};
    ghost use Rattle.cyc_sim.specs.Narrowed.{Narrows};

    /// The narrow program that gives the same, if there is one.
    pub fn of(alloc: Global, program: &Program) -> Result<NarrowProgram, Unfit>
        ensures { IfOk result (Narrows program.now) }
    {
        let first = program.inputs + program.registers.len();
        let arrangement = Arrangement::of(alloc, first, &program.operations)?;
        let operations = arrangement.operations(alloc, &program.operations)?;
        let limit = arrangement.limit()?;
        let total = sum_of(limit, operations.len())?;
        if !are_below(&operations, limit) {
            return Err(Unfit::Wide);
        }
        let runs = runs_of(alloc, &operations)?;
        if !are_runs(&operations, &runs) {
            return Err(Unfit::Wide);
        }
        let outputs = arrangement.all(alloc, &program.outputs, total)?;
        let registers = arrangement.all(alloc, &program.registers, total)?;
        let Arrangement { constants, .. } = arrangement;
        Ok(NarrowProgram {
            inputs: program.inputs,
            constants,
            operations,
            runs,
            outputs,
            registers,
            limit,
            total,
        })
    }
}
