//! A script, from its bytes to its transcript.

ghost use Rattle.std.specs.Prelude.{◌≡◌, ◌≢◌, ◌-◌, ◌^◌, ◌<◌, Err, IfErr, IfOk, length};
ghost use Rattle.rb_model.specs.Sound.{IsSound};
ghost use Rattle.drive_lang.specs.Scripts.{script_of};
ghost use Rattle.drive_run.specs.Playing.{IsTranscriptOf};

use crate::playing::{Transcript, play};
use drive_lang::{DriveError, Script};
use machine_run::pins_of;
use rb_model::Block;
use std::alloc::Global;

/// What a script sees of the machine of a sound block from zeros, or the script's first error. The machine runs only where the script
/// has none. Want of memory may be answered in place of anything.
pub fn run_script(alloc: Global, block: &Block, bytes: &[u8]) -> Result<Transcript, DriveError>
    requires sound { IsSound block.now }
    requires short { length bytes.now < 2 ^ 32 - 1 }
    ensures ok { IfOk result (λ t. IsTranscriptOf block.now bytes.now t.text.items t.failed) }
    ensures err { IfErr result (λ e. e ≢ DriveError.NoMemory → script_of block.now bytes.now ≡ Err e) }
{
    let script = Script::read(alloc, bytes, block)?;
    let pins = pins_of(alloc, block)?;
    let transcript = play(alloc, block, script, pins.inputs.len(), pins.outputs.len())?;
    Ok(transcript)
}
