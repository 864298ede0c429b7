//! A run, written an edge at a time.

ghost use Rattle.std.specs.Prelude.{◌≡◌, ◌≤◌, ◌++◌, ℕ, List, length};
ghost use Rattle.rb_edge.specs.Flows.{Flows};
ghost use Rattle.v_design.specs.Design.{inputs, registers};
ghost use Rattle.v_design.specs.Seen.{module_seen};
ghost use Rattle.v_design.specs.Run.{values_at};
ghost use Rattle.v_design.specs.Fits.{AllFit};
ghost use Rattle.cyc_sim.specs.Accepted.{IsAccepted};
ghost use Rattle.cyc_sim.specs.Simulation.{IsSimOf, held};
ghost use Rattle.sim_run.specs.Simulated.{zeros};
ghost use Rattle.wave_text.specs.Dumped.{run_pins, IsDump};

use crate::edges::{step_onto, values_before};
use cyc_sim::Sim;
use rb_base::Pin;
use rb_edge::{Failed, Page, Sink};
use stim_csv::Stimulus;
use v_design::Design;
use vcd_printer::{put_head, put_vector};

/// Writes the dump of a module's run from zeros.
pub(crate) fn put_run<K: Sink>(
    page: &mut Page,
    out: &mut K,
    design: &Design,
    pins: &[Pin],
    table: &Stimulus,
    sim: &mut Sim,
    before: &mut [u128],
    now: &mut [u128],
) -> Result<(), Failed>
    requires accepted { IsAccepted (module_seen design.now) }
    requires fit { AllFit (inputs (module_seen design.now)) table.now }
    requires few { length table.now ≤ 1000000 }
    requires pins { pins.now ≡ run_pins (module_seen design.now) }
    requires is_sim { IsSimOf (module_seen design.now) sim.old }
    requires zeroed { held sim.old ≡ values_at zeros (registers (module_seen design.now)) }
    requires before { length before.old ≡ length pins.now }
    requires now { length now.old ≡ length pins.now }
    ensures { (text : List ℕ) × IsDump (module_seen design.now) table.now text
        × Flows (K.told out.old) (K.told out.new) (K.faults out.old) (K.faults out.new) page.old page.new result text }
{
    put_head(page, out, design.name(), pins)?;
    for at in 0..table.rows() {
        step_onto(sim, table, at, now);
        put_vector(page, out, at, pins, values_before(at, before), now)?;
        before.copy_from_slice(now);
    }
    Ok(())
}
