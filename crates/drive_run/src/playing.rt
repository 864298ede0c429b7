//! A script played on a block's machine.

ghost use Rattle.std.specs.Prelude.{◌≡◌, ◌≤◌, ◌<◌, ◌+◌, ◌++◌, ◌^◌, Contains, IfOk, OnOk, length, map};
ghost use Rattle.v_design.specs.Fits.{AllFit};
ghost use Rattle.rb_model.specs.Ports.{input_pins};
ghost use Rattle.rb_model.specs.Sound.{IsSound};
ghost use Rattle.drive_lang.specs.Steps.{Step, turn_of};
ghost use Rattle.drive_run.specs.Transcript.{told};
ghost use Rattle.drive_run.specs.Playing.{IsTranscript, output_count, tallied};

use crate::telling::{number_at, push_counts, push_difference, push_shown};
use drive_lang::{Script, Turn};
use rb_base::NoMemory;
use rb_machine::Machine;
use rb_model::Block;
use std::alloc::Global;

/// What a script saw of a block's machine.
#[derive(Drop)]
pub struct Transcript {
    /// A line for each show and each check whose value differs, and one with the counts of checks.
    pub text: Vec<u8>,
    /// How many checks failed.
    pub failed: u32,
}

/// How many checks there were, and how many of them failed.
#[derive(Clone, Copy)]
pub(crate) struct Tally {
    checks: u32,
    failed: u32,
}

/// Tells what a turn of a script asks of the outputs.
fn tell(
    text: &mut Vec<u8>,
    tally: &mut Tally,
    script: &Script,
    turn: Turn,
    outs: &[u128],
) -> Result<(), NoMemory>
    requires room { tally.old.checks + 1 < 2 ^ 32 }
    requires less { tally.old.failed ≤ tally.old.checks }
    ensures told { (step : Step) → Contains script.now.all step → turn ≡ turn_of step.ask → OnOk result (text.new.items ≡ text.old.items ++ told step.ask outs.now) }
    ensures tallied { (step : Step) → turn ≡ turn_of step.ask → OnOk result (tally.new ≡ tallied step.ask outs.now tally.old) }
{
    match turn {
        Turn::Show { line, output } => {
            push_shown(text, line, script.name(line), number_at(outs, output))
        }
        Turn::Check {
            line,
            output,
            wanted,
        } => {
            let number = number_at(outs, output);
            tally.checks += 1;
            if number == wanted {
                return Ok(());
            }
            tally.failed += 1;
            push_difference(text, line, script.name(line), wanted, number)
        }
        Turn::Plain | Turn::End => Ok(()),
    }
}

/// What a script at its begin sees of the machine of a sound block, from zeros, where the block has so many inputs but the clock and
/// so many outputs. The only error is want of memory.
pub(crate) fn play(
    alloc: Global,
    block: &Block,
    script: Script,
    inputs: usize,
    outputs: usize,
) -> Result<Transcript, NoMemory>
    requires sound { IsSound block.now }
    requires fits { AllFit (input_pins block.now) (map (λ s. s.vector) script.all) }
    requires few { length script.all ≤ 1000000 }
    requires begun { script.left ≡ script.all }
    requires pins { script.pins ≡ length (input_pins block.now) }
    requires inputs { inputs ≡ length (input_pins block.now) }
    requires outputs { outputs ≡ output_count block.now }
    ensures { IfOk result (λ t. IsTranscript block.now script.all t.text.items t.failed) }
{
    let mut script = script;
    let mut machine = Machine::new(alloc, block)?;
    let mut pins = vec![in alloc; 0u128; inputs]?;
    let mut outs = vec![in alloc; 0u128; outputs]?;
    let mut text = Vec::new(alloc);
    let mut tally = Tally {
        checks: 0,
        failed: 0,
    };
    loop {
        let turn = script.next(&mut pins);
        if let Turn::End = turn {
            break;
        }
        machine.step(&pins, &mut outs);
        tell(&mut text, &mut tally, &script, turn, &outs)?;
    }
    push_counts(&mut text, tally.checks, tally.failed)?;
    Ok(Transcript {
        text,
        failed: tally.failed,
    })
}
