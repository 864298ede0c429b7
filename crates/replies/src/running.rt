//! The machine of a source's block, over a table of pin values.

ghost use Rattle.std.specs.Prelude.{◌≡◌, ◌≤◌, [], ℕ, List, IfOk, option_copied};
ghost use Rattle.rb_model.specs.Sound.{IsSound};
ghost use Rattle.command_line.specs.Words.{run_of, IsWaits};
ghost use Rattle.replies.specs.Text.{protocol_line};
ghost use Rattle.replies.specs.Outcome.{FailedRead, Answers};
ghost use Rattle.replies.specs.Answer.{texts_of};
ghost use Rattle.replies.specs.RunAnswer.{IsRunAnswer};

use crate::answer::{Answer, done, notice};
use crate::describing::{Described, describe_source};
use crate::loading::{Loaded, SOURCE_LIMIT, load_file};
use crate::simulating::bad_stimulus;
use crate::status::Status;
use machine_run::{RunError, run_machine, runs_agree};
use rb_base::NoMemory;
use rb_edge::Shelf;
use rb_model::Block;
use std::alloc::Global;

// The line of the first row that breaks the bus protocol.
fn broken(alloc: Global, file: &str, row: u64) -> Result<Answer, NoMemory>
    ensures status { IfOk result (λ answer. answer.status ≡ Status.Protocol) }
    ensures err { IfOk result (λ answer. answer.err.items ≡ protocol_line file.now row) }
    ensures out { IfOk result (λ answer. answer.out.items ≡ []) }
{
    let text = format!(in alloc; ": row {row}: protocol")?;
    notice(alloc, Status::Protocol, file, text.as_bytes())
}

// What the machine of a block gives over a table.
fn run_block(alloc: Global, block: &Block, table: &str, stimulus: &[u8]) -> Result<Answer, NoMemory>
    requires { IsSound block.now }
    ensures { IfOk result (λ answer. IsRunAnswer block.now table.now stimulus.now answer.status (texts_of answer)) }
{
    runs_agree();
    match run_machine(alloc, block, stimulus) {
        Ok(text) => Ok(done(alloc, text)),
        Err(RunError::Stimulus(problem)) => {
            let answer = bad_stimulus(alloc, table, &problem)?;
            Ok(answer)
        }
        Err(RunError::Protocol(row)) => {
            let answer = broken(alloc, table, row)?;
            Ok(answer)
        }
        Err(RunError::NoMemory) => Err(NoMemory),
    }
}

/// What `run` answers.
pub(crate) fn run_files<S: Shelf>(
    alloc: Global,
    shelf: &mut S,
    waits: Option<u8>,
    top: Option<&str>,
    file: &str,
    table: &str,
) -> Result<Answer, NoMemory>
    requires { IsWaits waits }
    ensures answers { IfOk result (λ answer. Answers (S.contents shelf.old) (FailedRead S.faults shelf.old shelf.new) (run_of waits (option_copied top.entry) file.now table.now) answer.status (texts_of answer)) }
    ensures unchanged { S.contents shelf.new ≡ S.contents shelf.old }
    ensures later { (any : List ℕ) → S.faults shelf.old any ≤ S.faults shelf.new any }
{
    let source = match load_file(alloc, shelf, file, SOURCE_LIMIT)? {
        Loaded::Bytes(source) => source,
        Loaded::Stopped(answer) => return Ok(answer),
    };
    let stimulus = match load_file(alloc, shelf, table, SOURCE_LIMIT)? {
        Loaded::Bytes(stimulus) => stimulus,
        Loaded::Stopped(answer) => return Ok(answer),
    };
    let block = match describe_source(alloc, waits, top, file, &source)? {
        Described::Clean(block) => block,
        Described::Stopped(answer) => return Ok(answer),
    };
    let answer = run_block(alloc, &block, table, &stimulus)?;
    Ok(answer)
}
