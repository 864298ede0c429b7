//! Sources, from their bytes to their verdicts.

ghost use Rattle.std.specs.Prelude.{◌≡◌, ◌≤◌, ℕ, List, All, length, IfOk, OnOk, option_copied};
ghost use Rattle.command_line.specs.Words.{check, texts};
ghost use Rattle.replies.specs.Outcome.{FailedRead, Answers, IsChecked, source_limit};
ghost use Rattle.replies.specs.Answer.{texts_of};
ghost use Rattle.replies.specs.Checked.{AreLoaded, IsOneMore, bytes_of};

use crate::answer::Answer;
use crate::loading::{Loaded, SOURCE_LIMIT, load_file};
use crate::status::Status;
use bumpalo::Bump;
use rb_base::NoMemory;
use rb_edge::Shelf;
use rdl_verdict::{JudgeError, verdict};
use std::alloc::Global;
use verdict_text::{push_ok, push_verdict};

/// The bytes of all files, or the answer where one can't be read or is too long.
#[derive(Drop)]
pub(crate) enum AllLoaded {
    Sources(Vec<Vec<u8>>),
    Stopped(Answer),
}

// Reads all files, in order.
fn load_all<S: Shelf>(alloc: Global, shelf: &mut S, files: &[String]) -> Result<AllLoaded, NoMemory>
    ensures loaded { IfOk result (AreLoaded (S.contents shelf.old) (FailedRead S.faults shelf.old shelf.new) (texts files.now)) }
    ensures unchanged { S.contents shelf.new ≡ S.contents shelf.old }
    ensures later { (any : List ℕ) → S.faults shelf.old any ≤ S.faults shelf.new any }
{
    let mut sources = Vec::new(alloc);
    for file in files {
        match load_file(alloc, shelf, file.as_str(), SOURCE_LIMIT)? {
            Loaded::Bytes(source) => sources.push(source)?,
            Loaded::Stopped(answer) => return Ok(AllLoaded::Stopped(answer)),
        }
    }
    Ok(AllLoaded::Sources(sources))
}

// Gives up what an arena holds, so that the next source takes its room, or a new arena where that is refused.
fn empty(alloc: Global, arena: &mut Bump) {
    if arena.reset().is_err() {
        *arena = Bump::new(alloc);
    }
}

// Adds the verdict of a source to an answer: of its own text alone. Its trees stay in the arena.
fn add_verdict(
    alloc: Global,
    arena: &Bump,
    top: Option<&str>,
    file: &str,
    source: &[u8],
    answer: &mut Answer,
) -> Result<(), NoMemory>
    requires { length source.now ≤ source_limit }
    ensures { OnOk result (IsOneMore (option_copied top.entry) file.now source.now answer.old answer.new) }
{
    match verdict(alloc, arena, source, top) {
        Ok(()) => push_ok(&mut answer.out, file),
        Err(JudgeError::Faults(faults)) => {
            answer.status = Status::Refused;
            push_verdict(alloc, &mut answer.err, file, source, &faults)
        }
        Err(JudgeError::NoMemory) => Err(NoMemory),
    }
}

// The verdicts of all sources, over one arena.
fn check_sources(
    alloc: Global,
    top: Option<&str>,
    files: &[String],
    sources: &[Vec<u8>],
) -> Result<Answer, NoMemory>
    requires each { length files.now ≡ length sources.now }
    requires short { All (λ source. length source.items ≤ source_limit) sources.now }
    ensures { IfOk result (λ answer. IsChecked (option_copied top.entry) (texts files.now) (bytes_of sources.now) answer.status (texts_of answer)) }
{
    let mut answer = Answer {
        status: Status::Done,
        err: Vec::new(alloc),
        out: Vec::new(alloc),
    };
    let mut arena = Bump::new(alloc);
    for at in 0..files.len() {
        empty(alloc, &mut arena);
        add_verdict(
            alloc,
            &arena,
            top,
            files[at].as_str(),
            &sources[at],
            &mut answer,
        )?;
    }
    Ok(answer)
}

/// What `check` answers.
pub(crate) fn check_files<S: Shelf>(
    alloc: Global,
    shelf: &mut S,
    top: Option<&str>,
    files: &[String],
) -> Result<Answer, NoMemory>
    ensures answers { IfOk result (λ answer. Answers (S.contents shelf.old) (FailedRead S.faults shelf.old shelf.new) (check (option_copied top.entry) (texts files.now)) answer.status (texts_of answer)) }
    ensures unchanged { S.contents shelf.new ≡ S.contents shelf.old }
    ensures later { (any : List ℕ) → S.faults shelf.old any ≤ S.faults shelf.new any }
{
    match load_all(alloc, shelf, files)? {
        AllLoaded::Sources(sources) => {
            let answer = check_sources(alloc, top, files, &sources)?;
            Ok(answer)
        }
        AllLoaded::Stopped(answer) => Ok(answer),
    }
}
