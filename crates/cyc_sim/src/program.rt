//! A compiled module.
ghost use Rattle.std.specs.Prelude.{◌≡◌, ◌+◌, true, length, IfOk};
ghost use Rattle.cyc_sim.specs.Operations.{are_within, are_places};

use crate::listing::Listing;
use crate::operation::Operation;
use crate::order::settling_order;
use crate::prepare::{place_moves, place_nets, place_pins, place_registers, places_in};
use rb_base::NoMemory;
use std::alloc::Global;
use v_design::Design;

/// What the nets of a module are computed from. The first places are those of the pins, then those of the contents of
/// the registers, and then those of the operations.
#[derive(Drop)]
pub(crate) struct Program {
    pub inputs: usize,
    pub operations: Vec<Operation>,
    /// The place of each output.
    pub outputs: Vec<usize>,
    /// The place of what each register contains after an edge.
    pub registers: Vec<usize>,
    /// How many places there are.
    pub total: usize,
    pub ghost sized: { total ≡ inputs + length registers.items + length operations.items },
    pub ghost within: { are_within (inputs + length registers.items) operations.items ≡ true },
    pub ghost outputs_within: { are_places total outputs.items ≡ true },
    pub ghost registers_within: { are_places total registers.items ≡ true },
}

impl Program {
    ghost use Rattle.std.specs.Prelude.{IfOk};
    ghost use Rattle.v_design.specs.Seen.{module_seen};
    ghost use Rattle.cyc_sim.specs.Accepted.{IsAccepted};
    ghost use Rattle.cyc_sim.specs.Simulation.{IsProgramOf};

    /// The program of an accepted module. It takes time in proportion to the size of the module, but for names,
    /// each of which is looked up in order.
    pub fn new(alloc: Global, design: &Design) -> Result<Program, NoMemory>
        requires { IsAccepted (module_seen design.now) }
        ensures { IfOk result (IsProgramOf (module_seen design.now)) }
    {
        let pins = design.inputs();
        let kept = design.registers();
        // No memory holds so many places that their number passes 2^64.
        let Some(first) = pins.len().checked_add(kept.len()) else {
            return Err(NoMemory);
        };
        let mut known = place_pins(alloc, pins, 0)?;
        let contents = place_pins(alloc, kept, pins.len())?;
        let mut listing = Listing::new(alloc, first);
        place_registers(design, &contents, &mut known, &mut listing)?;
        let order = settling_order(alloc, &design.stmts)?;
        place_nets(design, &order, &mut known, &mut listing)?;
        let moves = place_moves(alloc, design, &known, &mut listing)?;
        let outputs = places_in(alloc, &known, design.outputs())?;
        let registers = places_in(alloc, &moves, kept)?;
        let Listing { operations, .. } = listing;
        // The same holds of all places.
        let Some(total) = first.checked_add(operations.len()) else {
            return Err(NoMemory);
        };
        Ok(Program {
            inputs: pins.len(),
            operations,
            outputs,
            registers,
            total,
        })
    }
}
