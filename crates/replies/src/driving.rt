//! The machine of a source's block, under a script.

ghost use Rattle.std.specs.Prelude.{◌≡◌, ◌≢◌, ◌≤◌, ◌<◌, ◌-◌, ◌^◌, [], ℕ, List, IfOk, length, option_copied};
ghost use Rattle.rb_model.specs.Sound.{IsSound};
ghost use Rattle.command_line.specs.Words.{drive_of};
ghost use Rattle.replies.specs.Text.{script_line, script_problem};
ghost use Rattle.replies.specs.Outcome.{FailedRead, Answers};
ghost use Rattle.replies.specs.Answer.{texts_of};
ghost use Rattle.replies.specs.DriveAnswer as drive;
ghost use Rattle.replies.specs.DriveAnswer.{IsDriveAnswer};

use crate::answer::{Answer, notice};
use crate::describing::{Described, describe_source};
use crate::loading::{Loaded, SOURCE_LIMIT, load_file};
use crate::status::Status;
use drive_lang::DriveError;
use drive_run::{run_script, transcripts_agree};
use rb_base::NoMemory;
use rb_edge::Shelf;
use rb_model::Block;
use std::alloc::Global;

// What is wrong with a line of a script.
fn problem(alloc: Global, error: DriveError) -> Result<Vec<u8>, NoMemory>
    ensures text { IfOk result (λ text. text.items ≡ script_problem error) }
    ensures known { IfOk result (λ _. error ≢ DriveError.NoMemory) }
{
    match error {
        DriveError::Form { line } => {
            let text = format!(in alloc; ": line {line}: form")?;
            Ok(text.into_bytes())
        }
        DriveError::Unknown { line } => {
            let text = format!(in alloc; ": line {line}: unknown name")?;
            Ok(text.into_bytes())
        }
        DriveError::TooWide { line } => {
            let text = format!(in alloc; ": line {line}: too wide")?;
            Ok(text.into_bytes())
        }
        DriveError::Many { line } => {
            let text = format!(in alloc; ": line {line}: too many")?;
            Ok(text.into_bytes())
        }
        DriveError::NoMemory => Err(NoMemory),
    }
}

// The line of a script's first error.
fn bad_script(alloc: Global, file: &str, error: DriveError) -> Result<Answer, NoMemory>
    ensures status { IfOk result (λ answer. answer.status ≡ Status.BadScript) }
    ensures err { IfOk result (λ answer. answer.err.items ≡ script_line file.now error) }
    ensures out { IfOk result (λ answer. answer.out.items ≡ []) }
    ensures known { IfOk result (λ _. error ≢ DriveError.NoMemory) }
{
    let text = problem(alloc, error)?;
    notice(alloc, Status::BadScript, file, &text)
}

// The status where so many checks failed.
fn status_of_checks(failed: u32) -> Status
    ensures { result ≡ drive.status_of_checks failed }
{
    if failed == 0 {
        Status::Done
    } else {
        Status::Unmet
    }
}

// What a script saw, of which so many checks failed, on out alone.
fn seen(alloc: Global, failed: u32, out: Vec<u8>) -> Answer
    ensures status { result.status ≡ drive.status_of_checks failed }
    ensures err { result.err.items ≡ [] }
    ensures out { result.out.items ≡ out.items }
{
    Answer {
        status: status_of_checks(failed),
        err: Vec::new(alloc),
        out,
    }
}

// What a script sees of the machine of a block without wait states, or its first error.
fn drive_block(alloc: Global, block: &Block, file: &str, script: &[u8]) -> Result<Answer, NoMemory>
    requires sound { IsSound block.now }
    requires waits { block.now.waits ≡ 0 }
    requires short { length script.now < 2 ^ 32 - 1 }
    ensures { IfOk result (λ answer. IsDriveAnswer block.now file.now script.now answer.status (texts_of answer)) }
{
    transcripts_agree();
    match run_script(alloc, block, script) {
        Ok(transcript) => Ok(seen(alloc, transcript.failed, transcript.text)),
        Err(error) => {
            let answer = bad_script(alloc, file, error)?;
            Ok(answer)
        }
    }
}

/// What `drive` answers.
pub(crate) fn drive_files<S: Shelf>(
    alloc: Global,
    shelf: &mut S,
    top: Option<&str>,
    file: &str,
    script: &str,
) -> Result<Answer, NoMemory>
    ensures answers { IfOk result (λ answer. Answers (S.contents shelf.old) (FailedRead S.faults shelf.old shelf.new) (drive_of (option_copied top.entry) file.now script.now) answer.status (texts_of answer)) }
    ensures unchanged { S.contents shelf.new ≡ S.contents shelf.old }
    ensures later { (any : List ℕ) → S.faults shelf.old any ≤ S.faults shelf.new any }
{
    let source = match load_file(alloc, shelf, file, SOURCE_LIMIT)? {
        Loaded::Bytes(source) => source,
        Loaded::Stopped(answer) => return Ok(answer),
    };
    let bytes = match load_file(alloc, shelf, script, SOURCE_LIMIT)? {
        Loaded::Bytes(bytes) => bytes,
        Loaded::Stopped(answer) => return Ok(answer),
    };
    let block = match describe_source(alloc, None, top, file, &source)? {
        Described::Clean(block) => block,
        Described::Stopped(answer) => return Ok(answer),
    };
    let answer = drive_block(alloc, &block, script, &bytes)?;
    Ok(answer)
}
