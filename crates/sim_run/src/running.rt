//! A module's run.

ghost use Rattle.std.specs.Prelude.{◌≡◌, IfOk};
ghost use Rattle.v_design.specs.Design.{inputs};
ghost use Rattle.v_design.specs.Seen.{module_seen};
ghost use Rattle.v_design.specs.Fits.{AllFit};
ghost use Rattle.cyc_sim.specs.Accepted.{IsAccepted};
ghost use Rattle.sim_run.specs.Simulated.{IsRunText};

use cyc_sim::Sim;
use rb_base::NoMemory;
use report_text::{RowPrinter, push_names};
use std::alloc::Global;
use stim_csv::Stimulus;
use v_design::Design;

/// The run of a module from zeros over the vectors of a table, as text.
pub(crate) fn module_run(
    alloc: Global,
    design: &Design,
    table: &Stimulus,
) -> Result<Vec<u8>, NoMemory>
    requires accepted { IsAccepted (module_seen design.now) }
    requires fit { AllFit (inputs (module_seen design.now)) table.now }
    ensures { IfOk result (λ text. IsRunText (module_seen design.now) table.now text.items) }
{
    let start = vec![in alloc; 0u128; design.registers().len()]?;
    let mut sim = Sim::new(alloc, design, &start)?;
    let mut pins = vec![in alloc; 0u128; table.width()]?;
    let mut outs = vec![in alloc; 0u128; design.outputs().len()]?;
    let mut rows = RowPrinter::new(alloc, &outs)?;
    let mut text = Vec::new(alloc);
    push_names(&mut text, design.outputs())?;
    for at in 0..table.rows() {
        table.row_into(at, &mut pins);
        sim.step(&pins, &mut outs);
        rows.push(&mut text, &outs)?;
    }
    Ok(text)
}
