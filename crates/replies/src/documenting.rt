//! A source, from its file to its manual page.

ghost use Rattle.std.specs.Prelude.{◌≡◌, ◌≤◌, ◌∷◌, [], ℕ, List, length, IfOk, option_copied};
ghost use Rattle.command_line.specs.Words.{manual_of};
ghost use Rattle.replies.specs.Outcome.{FailedRead, Judges, Answers, source_limit};
ghost use Rattle.replies.specs.Reply.{HasText, IsPrintable, status_of, told_by};

use crate::answer::Reply;
use crate::describing::refusal;
use crate::loading::{Loaded, SOURCE_LIMIT, load_file};
use bumpalo::Bump;
use html_manual::prepare;
use rb_base::NoMemory;
use rb_edge::Shelf;
use rdl_documents::{Contents, contents_of};
use rdl_verdict::JudgeError;
use std::alloc::Global;

// The page of a source.
fn document_source<'a>(
    alloc: Global,
    arena: &'a Bump,
    top: Option<&str>,
    file: &str,
    source: &[u8],
) -> Result<Reply<'a>, NoMemory>
    requires { length source.now ≤ source_limit }
    ensures judged { IfOk result (λ reply. (dump : List ℕ) → HasText reply dump → Judges (manual_of (option_copied top.entry) file.now) (source.now ∷ []) (status_of reply) (told_by reply dump)) }
    ensures printable { IfOk result IsPrintable }
{
    match contents_of(alloc, arena, source, top) {
        Ok(contents) => {
            let Contents {
                block,
                notes,
                encodings,
            } = contents;
            let manual = prepare(alloc, block, notes, encodings)?;
            Ok(Reply::Page(manual))
        }
        Err(JudgeError::Faults(faults)) => {
            let answer = refusal(alloc, file, source, faults)?;
            Ok(Reply::Text(answer))
        }
        Err(JudgeError::NoMemory) => Err(NoMemory),
    }
}

/// What `manual` answers.
pub(crate) fn manual_file<'a, S: Shelf>(
    alloc: Global,
    arena: &'a Bump,
    shelf: &mut S,
    top: Option<&str>,
    file: &str,
) -> Result<Reply<'a>, NoMemory>
    ensures answers { IfOk result (λ reply. (dump : List ℕ) → HasText reply dump → Answers (S.contents shelf.old) (FailedRead S.faults shelf.old shelf.new) (manual_of (option_copied top.entry) file.now) (status_of reply) (told_by reply dump)) }
    ensures printable { IfOk result IsPrintable }
    ensures unchanged { S.contents shelf.new ≡ S.contents shelf.old }
    ensures later { (any : List ℕ) → S.faults shelf.old any ≤ S.faults shelf.new any }
{
    match load_file(alloc, shelf, file, SOURCE_LIMIT)? {
        Loaded::Bytes(source) => {
            let reply = document_source(alloc, arena, top, file, &source)?;
            Ok(reply)
        }
        Loaded::Stopped(answer) => Ok(Reply::Text(answer)),
    }
}
