//! A source, from its file to its C header.

ghost use Rattle.std.specs.Prelude.{◌≡◌, ◌≤◌, ◌∷◌, [], ℕ, List, length, IfOk, option_copied};
ghost use Rattle.command_line.specs.Words.{header_of};
ghost use Rattle.replies.specs.Outcome.{FailedRead, Judges, Answers, source_limit};
ghost use Rattle.replies.specs.Answer.{texts_of};

use crate::answer::{Answer, done};
use crate::describing::refusal;
use crate::loading::{Loaded, SOURCE_LIMIT, load_file};
use bumpalo::Bump;
use c_header::header;
use rb_base::NoMemory;
use rb_edge::Shelf;
use rdl_documents::heading_of;
use rdl_verdict::JudgeError;
use std::alloc::Global;

// The header of a source.
fn header_source(
    alloc: Global,
    top: Option<&str>,
    file: &str,
    source: &[u8],
) -> Result<Answer, NoMemory>
    requires { length source.now ≤ source_limit }
    ensures { IfOk result (λ answer. Judges (header_of (option_copied top.entry) file.now) (source.now ∷ []) answer.status (texts_of answer)) }
{
    let names = Bump::new(alloc);
    match heading_of(alloc, &names, source, top) {
        Ok(heading) => {
            let text = header(alloc, &heading.block, &heading.encodings)?;
            Ok(done(alloc, text))
        }
        Err(JudgeError::Faults(faults)) => {
            let answer = refusal(alloc, file, source, faults)?;
            Ok(answer)
        }
        Err(JudgeError::NoMemory) => Err(NoMemory),
    }
}

/// What `header` answers.
pub(crate) fn header_file<S: Shelf>(
    alloc: Global,
    shelf: &mut S,
    top: Option<&str>,
    file: &str,
) -> Result<Answer, NoMemory>
    ensures answers { IfOk result (λ answer. Answers (S.contents shelf.old) (FailedRead S.faults shelf.old shelf.new) (header_of (option_copied top.entry) file.now) answer.status (texts_of answer)) }
    ensures unchanged { S.contents shelf.new ≡ S.contents shelf.old }
    ensures later { (any : List ℕ) → S.faults shelf.old any ≤ S.faults shelf.new any }
{
    match load_file(alloc, shelf, file, SOURCE_LIMIT)? {
        Loaded::Bytes(source) => {
            let answer = header_source(alloc, top, file, &source)?;
            Ok(answer)
        }
        Loaded::Stopped(answer) => Ok(answer),
    }
}
