//! A machine's run.

ghost use Rattle.std.specs.Prelude.{◌≡◌, ℕ, List, IfOk};
ghost use Rattle.v_design.specs.Fits.{AllFit};
ghost use Rattle.rb_model.specs.Ports.{input_pins};
ghost use Rattle.rb_model.specs.Run.{MachineRun};
ghost use Rattle.rb_model.specs.Sound.{IsSound};
ghost use Rattle.report_text.specs.Printed.{printed_run};
ghost use Rattle.machine_run.specs.Runs.{output_pins, zeros};

use rb_base::{NoMemory, Pin};
use rb_machine::Machine;
use rb_model::Block;
use report_text::{RowPrinter, push_names};
use std::alloc::Global;
use stim_csv::Stimulus;

/// The run of a sound block's machine from zeros over the vectors of a table, as text.
pub(crate) fn machine_text(
    alloc: Global,
    block: &Block,
    outputs: &[Pin],
    table: &Stimulus,
) -> Result<Vec<u8>, NoMemory>
    requires sound { IsSound block.now }
    requires fit { AllFit (input_pins block.now) table.now }
    requires outputs { outputs.now ≡ output_pins block.now }
    ensures { IfOk result (λ text. (results : List (List ℕ)) × MachineRun block.now zeros table.now results
        × (text.items ≡ printed_run (output_pins block.now) results)) }
{
    let mut machine = Machine::new(alloc, block)?;
    let mut pins = vec![in alloc; 0u128; table.width()]?;
    let mut outs = vec![in alloc; 0u128; outputs.len()]?;
    let mut rows = RowPrinter::new(alloc, &outs)?;
    let mut text = Vec::new(alloc);
    push_names(&mut text, outputs)?;
    for at in 0..table.rows() {
        table.row_into(at, &mut pins);
        machine.step(&pins, &mut outs);
        rows.push(&mut text, &outs)?;
    }
    Ok(text)
}
