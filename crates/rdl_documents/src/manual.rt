//! What a manual is made of.

ghost use Rattle.std.specs.Prelude.{◌<◌, ◌-◌, ◌^◌, ℕ, IfOk, List, Option, length, option_copied};
ghost use Rattle.rdl_documents.specs.Documents.{IsTold, Tells};
ghost use Rattle.rdl_verdict.specs.Answers.{IsJudged};

use block_effects::Notes;
use bumpalo::Bump;
use encodings::Encodings;
use kept_texts::{keep_encodings, keep_notes};
use rb_base::NoMemory;
use rb_model::Block;
use rdl_notes::notes_of;
use rdl_verdict::{JudgeError, Judged, judge};
use std::alloc::Global;

/// The block of a source that breaks no rule, what the source says of its parts, and the enumerations that its fields are encoded by.
#[derive(Drop)]
pub struct Contents<'n> {
    pub block: Block,
    pub notes: Notes<'n>,
    pub encodings: Encodings<'n>,
}

// What is kept of a source that breaks no rule.
fn kept<'n>(alloc: Global, names: &'n Bump, judged: Judged<'_>) -> Result<Contents<'n>, NoMemory>
    requires { (wanted : Option (List ℕ)) × ((text : List ℕ) × IsJudged wanted text judged) }
    ensures { IfOk result (λ r. (wanted : Option (List ℕ)) (text : List ℕ) → IsJudged wanted text judged.entry → IsTold wanted text r) }
{
    let Judged {
        elab,
        settled,
        block,
    } = judged;
    let notes = notes_of(alloc, &settled.props, &elab, &settled.encodings)?;
    let kept = keep_notes(alloc, names, &notes)?;
    let encodings = keep_encodings(alloc, names, settled.encodings)?;
    Ok(Contents {
        block,
        notes: kept,
        encodings,
    })
}

/// What the manual of a source is made of, or the failures of the first phase that has any. Texts stay in the arena, and the source's
/// trees go.
pub fn contents_of<'n>(
    alloc: Global,
    texts: &'n Bump,
    text: &[u8],
    top: Option<&str>,
) -> Result<Contents<'n>, JudgeError>
    requires { length text.now < 2 ^ 32 - 1 }
    ensures { Tells (option_copied top.entry) text.now result }
{
    let arena = Bump::new(alloc);
    match judge(alloc, &arena, text, top) {
        Ok(judged) => match kept(alloc, texts, judged) {
            Ok(contents) => Ok(contents),
            Err(NoMemory) => Err(JudgeError::NoMemory),
        },
        Err(error) => Err(error),
    }
}
