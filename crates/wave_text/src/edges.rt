//! An edge of a simulation, with the values of all pins at it.

ghost use Rattle.std.specs.Option.{option_copied};
ghost use Rattle.std.specs.Prelude.{◌≡◌, ◌+◌, ◌++◌, ◌==◌, if◌then◌else◌, ◌<◌, None, Some, ℕ, List, [], length, slice_index_or};
ghost use Rattle.v_design.specs.Expr.{Values};
ghost use Rattle.v_design.specs.Design.{Module, inputs, registers};
ghost use Rattle.v_design.specs.Run.{values_at};
ghost use Rattle.v_design.specs.Fits.{FitsPins};
ghost use Rattle.cyc_sim.specs.Simulation.{IsSimOf, StepsTo, held, input_count, output_count};

use cyc_sim::Sim;
use stim_csv::Stimulus;

/// Steps a simulation over a row of a table, and keeps the row and the outputs at the edge.
pub(crate) fn step_onto(sim: &mut Sim, table: &Stimulus, at: u64, now: &mut [u128])
    requires row { at < length table.now }
    requires inputs { length (slice_index_or table.now at []) ≡ input_count sim.old }
    requires all { length now.old ≡ input_count sim.old + output_count sim.old }
    ensures { (m : Module) → IsSimOf m sim.old → FitsPins (inputs m) (slice_index_or table.now at [])
        → (contents : Values) → values_at contents (registers m) ≡ held sim.old
        → (outs : List ℕ) × (now.new ≡ slice_index_or table.now at [] ++ outs)
        × StepsTo m contents (slice_index_or table.now at []) outs (held sim.new) × IsSimOf m sim.new }
{
    let (front, back) = now.split_at_mut(table.width());
    table.row_into(at, front);
    sim.step(front, back);
}

/// The values before the edge of a number: none before the first.
pub(crate) fn values_before(at: u64, before: &[u128]) -> Option<&[u128]>
    ensures { option_copied result ≡ (if at == 0 then None else Some before.now) }
{
    if at == 0 { None } else { Some(before) }
}
