//! A source, from its file to its module behind an AXI4-Lite slave port.

ghost use Rattle.std.specs.Prelude.{◌≡◌, ◌≤◌, ◌∷◌, [], ℕ, List, length, IfOk, option_copied};
ghost use Rattle.command_line.specs.Words.{axi_of};
ghost use Rattle.replies.specs.Described.{IsFoundForAxi};
ghost use Rattle.replies.specs.Outcome.{FailedRead, Judges, Answers, source_limit};
ghost use Rattle.replies.specs.Reply.{HasText, IsPrintable, status_of, told_by};

use crate::answer::Reply;
use crate::describing::{Described, refusal};
use crate::loading::{Loaded, SOURCE_LIMIT, load_file};
use crate::modules::axi_net;
use bumpalo::Bump;
use rb_base::NoMemory;
use rb_edge::Shelf;
use rdl_verdict::{JudgeError, judge, judge_accesses};
use std::alloc::Global;

// The block of a source whose registers are accessed 32 bits at once.
fn describe_for_axi(
    alloc: Global,
    top: Option<&str>,
    file: &str,
    source: &[u8],
) -> Result<Described, NoMemory>
    requires { length source.now ≤ source_limit }
    ensures { IfOk result (IsFoundForAxi (option_copied top.entry) file.now source.now) }
{
    let arena = Bump::new(alloc);
    match judge(alloc, &arena, source, top) {
        Ok(judged) => {
            let narrow = judge_accesses(alloc, &judged)?;
            if narrow.is_empty() {
                return Ok(Described::Clean(judged.block));
            }
            let answer = refusal(alloc, file, source, narrow)?;
            Ok(Described::Stopped(answer))
        }
        Err(JudgeError::Faults(faults)) => {
            let answer = refusal(alloc, file, source, faults)?;
            Ok(Described::Stopped(answer))
        }
        Err(JudgeError::NoMemory) => Err(NoMemory),
    }
}

// The module of a source.
fn front_source(
    alloc: Global,
    top: Option<&str>,
    file: &str,
    source: &[u8],
) -> Result<Reply<'static>, NoMemory>
    requires { length source.now ≤ source_limit }
    ensures judged { IfOk result (λ reply. (dump : List ℕ) → HasText reply dump → Judges (axi_of (option_copied top.entry) file.now) (source.now ∷ []) (status_of reply) (told_by reply dump)) }
    ensures printable { IfOk result IsPrintable }
{
    match describe_for_axi(alloc, top, file, source)? {
        Described::Clean(block) => {
            let net = axi_net(alloc, &block)?;
            Ok(Reply::Module(net))
        }
        Described::Stopped(answer) => Ok(Reply::Text(answer)),
    }
}

/// What `axi` answers.
pub(crate) fn front_file<S: Shelf>(
    alloc: Global,
    shelf: &mut S,
    top: Option<&str>,
    file: &str,
) -> Result<Reply<'static>, NoMemory>
    ensures answers { IfOk result (λ reply. (dump : List ℕ) → HasText reply dump → Answers (S.contents shelf.old) (FailedRead S.faults shelf.old shelf.new) (axi_of (option_copied top.entry) file.now) (status_of reply) (told_by reply dump)) }
    ensures printable { IfOk result IsPrintable }
    ensures unchanged { S.contents shelf.new ≡ S.contents shelf.old }
    ensures later { (any : List ℕ) → S.faults shelf.old any ≤ S.faults shelf.new any }
{
    match load_file(alloc, shelf, file, SOURCE_LIMIT)? {
        Loaded::Bytes(source) => {
            let reply = front_source(alloc, top, file, &source)?;
            Ok(reply)
        }
        Loaded::Stopped(answer) => Ok(Reply::Text(answer)),
    }
}
