//! A source, from its bytes to the block that it describes.

ghost use Rattle.std.specs.Prelude.{◌≡◌, ◌≢◌, ◌≤◌, [], length, take, IfOk, option_copied};
ghost use Rattle.command_line.specs.Words.{IsWaits, waits_of};
ghost use Rattle.rdl_rules.specs.Waits.{with_waits};
ghost use Rattle.verdict_text.specs.Lines.{verdict_lines};
ghost use Rattle.replies.specs.Outcome.{source_limit};
ghost use Rattle.replies.specs.Described.{IsFoundFor};

use crate::answer::Answer;
use crate::status::Status;
use bumpalo::Bump;
use rb_base::NoMemory;
use rb_model::Block;
use rdl_base::Fault;
use rdl_rules::blocks_with_waits;
use rdl_verdict::{JudgeError, Judged, judge};
use std::alloc::Global;
use verdict_text::push_verdict;

/// The block of a source, or the answer that names the first rule that it breaks.
#[derive(Drop)]
pub(crate) enum Described {
    Clean(Block),
    Stopped(Answer),
}

/// The line of the first failure of a verdict.
pub(crate) fn refusal(
    alloc: Global,
    file: &str,
    source: &[u8],
    faults: Vec<Fault>,
) -> Result<Answer, NoMemory>
    requires short { length source.now ≤ source_limit }
    requires some { faults.items ≢ [] }
    ensures status { IfOk result (λ answer. answer.status ≡ Status.Refused) }
    ensures err { IfOk result (λ answer. answer.err.items ≡ verdict_lines file.now source.now (take 1 faults.items)) }
    ensures out { IfOk result (λ answer. answer.out.items ≡ []) }
{
    let mut err = Vec::new(alloc);
    push_verdict(alloc, &mut err, file, source, &faults[..1])?;
    Ok(Answer {
        status: Status::Refused,
        err,
        out: Vec::new(alloc),
    })
}

// The wait states that the words name, or none.
fn wait_states(waits: Option<u8>) -> u8
    ensures { result ≡ waits_of waits }
{
    match waits {
        Some(count) => count,
        None => 0,
    }
}

// The block of a source, with the wait states that the words name.
fn waiting(judged: Judged<'_>, waits: Option<u8>) -> Block
    ensures { result ≡ with_waits (waits_of waits) judged.entry.block }
{
    let mut block = judged.block;
    block.waits = wait_states(waits);
    block
}

/// The block that a source describes, with so many wait states. The trees that it is judged by are gone after that.
pub(crate) fn describe_source(
    alloc: Global,
    waits: Option<u8>,
    top: Option<&str>,
    file: &str,
    source: &[u8],
) -> Result<Described, NoMemory>
    requires short { length source.now ≤ source_limit }
    requires waits { IsWaits waits }
    ensures { IfOk result (IsFoundFor (waits_of waits) (option_copied top.entry) file.now source.now) }
{
    blocks_with_waits();
    let arena = Bump::new(alloc);
    match judge(alloc, &arena, source, top) {
        Ok(judged) => Ok(Described::Clean(waiting(judged, waits))),
        Err(JudgeError::Faults(faults)) => {
            let answer = refusal(alloc, file, source, faults)?;
            Ok(Described::Stopped(answer))
        }
        Err(JudgeError::NoMemory) => Err(NoMemory),
    }
}
