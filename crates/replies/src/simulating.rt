//! A module and a table, from their files to a run.

ghost use Rattle.std.specs.Prelude.{◌≡◌, ◌≢◌, ◌≤◌, ◌∷◌, [], ℕ, List, length, IfOk};
ghost use Rattle.v_reader.specs.Reading.{place_number};
ghost use Rattle.command_line.specs.Words.{sim};
ghost use Rattle.replies.specs.Text.{kind_of as kind, verilog_line, stimulus_line};
ghost use Rattle.replies.specs.Outcome.{FailedRead, Judges, Answers, verilog_limit};
ghost use Rattle.replies.specs.Answer.{texts_of};

use crate::answer::{Answer, done, notice};
use crate::loading::{Loaded, SOURCE_LIMIT, VERILOG_LIMIT, load_file};
use crate::places::push_place;
use crate::status::Status;
use rb_base::{NoMemory, Place};
use rb_edge::Shelf;
use sim_run::{SimError, simulate};
use std::alloc::Global;
use v_syntax::VError;

// What an error is called.
fn kind_of(error: VError) -> &'static [u8]
    ensures { result.now ≡ kind error }
{
    match error {
        VError::Spelling { .. } => b"spelling",
        VError::Syntax { .. } => b"syntax",
        VError::TooDeep { .. } => b"too deep",
        VError::Twice { .. } => b"declared twice",
        VError::Undeclared { .. } => b"undeclared",
        VError::Driver { .. } => b"driver",
        VError::Width { .. } => b"width",
        VError::Loop { .. } => b"loop",
        VError::NoMemory => b"",
    }
}

fn place_of(error: VError) -> Place
    ensures { result.0 ≡ place_number error }
{
    match error {
        VError::Spelling { place }
        | VError::Syntax { place }
        | VError::TooDeep { place }
        | VError::Twice { place }
        | VError::Undeclared { place }
        | VError::Driver { place }
        | VError::Width { place }
        | VError::Loop { place } => place,
        VError::NoMemory => Place(0),
    }
}

/// The line of what is wrong with a module.
pub(crate) fn bad_verilog(
    alloc: Global,
    file: &str,
    verilog: &[u8],
    error: VError,
) -> Result<Answer, NoMemory>
    requires short { length verilog.now ≤ verilog_limit }
    requires within { place_number error ≤ length verilog.now }
    ensures status { IfOk result (λ answer. answer.status ≡ Status.BadVerilog) }
    ensures err { IfOk result (λ answer. answer.err.items ≡ verilog_line file.now verilog.now error) }
    ensures out { IfOk result (λ answer. answer.out.items ≡ []) }
{
    let mut text = Vec::new(alloc);
    push_place(alloc, &mut text, verilog, place_of(error))?;
    text.extend_from_slice(kind_of(error))?;
    let answer = notice(alloc, Status::BadVerilog, file, &text)?;
    Ok(answer)
}

/// The line of what is wrong with a table.
pub(crate) fn bad_stimulus(alloc: Global, file: &str, problem: &[u8]) -> Result<Answer, NoMemory>
    ensures status { IfOk result (λ answer. answer.status ≡ Status.BadStimulus) }
    ensures err { IfOk result (λ answer. answer.err.items ≡ stimulus_line file.now problem.now) }
    ensures out { IfOk result (λ answer. answer.out.items ≡ []) }
{
    let mut text = Vec::from_slice(alloc, b": ")?;
    text.extend_from_slice(problem)?;
    let answer = notice(alloc, Status::BadStimulus, file, &text)?;
    Ok(answer)
}

// What the bytes of a module and of a table give.
fn run_bytes(
    alloc: Global,
    file: &str,
    verilog: &[u8],
    table: &str,
    stimulus: &[u8],
) -> Result<Answer, NoMemory>
    requires { length verilog.now ≤ verilog_limit }
    ensures { IfOk result (λ answer. Judges (sim file.now table.now) (verilog.now ∷ stimulus.now ∷ []) answer.status (texts_of answer)) }
{
    match simulate(alloc, verilog, stimulus) {
        Ok(text) => Ok(done(alloc, text)),
        Err(SimError::Verilog(error)) => {
            let answer = bad_verilog(alloc, file, verilog, error)?;
            Ok(answer)
        }
        Err(SimError::Stimulus(problem)) => {
            let answer = bad_stimulus(alloc, table, &problem)?;
            Ok(answer)
        }
        Err(SimError::NoMemory) => Err(NoMemory),
    }
}

/// What `sim` answers.
pub(crate) fn simulate_files<S: Shelf>(
    alloc: Global,
    shelf: &mut S,
    file: &str,
    table: &str,
) -> Result<Answer, NoMemory>
    ensures answers { IfOk result (λ answer. Answers (S.contents shelf.old) (FailedRead S.faults shelf.old shelf.new) (sim file.now table.now) answer.status (texts_of answer)) }
    ensures unchanged { S.contents shelf.new ≡ S.contents shelf.old }
    ensures later { (any : List ℕ) → S.faults shelf.old any ≤ S.faults shelf.new any }
{
    let verilog = match load_file(alloc, shelf, file, VERILOG_LIMIT)? {
        Loaded::Bytes(verilog) => verilog,
        Loaded::Stopped(answer) => return Ok(answer),
    };
    let stimulus = match load_file(alloc, shelf, table, SOURCE_LIMIT)? {
        Loaded::Bytes(stimulus) => stimulus,
        Loaded::Stopped(answer) => return Ok(answer),
    };
    let answer = run_bytes(alloc, file, &verilog, table, &stimulus)?;
    Ok(answer)
}
