//! What a header is made of.

ghost use Rattle.std.specs.Prelude.{◌<◌, ◌-◌, ◌^◌, ℕ, IfOk, List, Option, length, option_copied};
ghost use Rattle.rdl_documents.specs.Documents.{Heads, IsHeading};
ghost use Rattle.rdl_verdict.specs.Answers.{IsJudged};

use bumpalo::Bump;
use encodings::Encodings;
use kept_texts::keep_encodings;
use rb_base::NoMemory;
use rb_model::Block;
use rdl_verdict::{JudgeError, Judged, judge};
use std::alloc::Global;

/// The block of a source that breaks no rule, and the enumerations that its fields are encoded by.
#[derive(Drop)]
pub struct Heading<'n> {
    pub block: Block,
    pub encodings: Encodings<'n>,
}

// What is kept of a source that breaks no rule.
fn kept<'n>(alloc: Global, names: &'n Bump, judged: Judged<'_>) -> Result<Heading<'n>, NoMemory>
    ensures { IfOk result (λ r. (wanted : Option (List ℕ)) (text : List ℕ) → IsJudged wanted text judged.entry → IsHeading wanted text r) }
{
    let Judged { settled, block, .. } = judged;
    let encodings = keep_encodings(alloc, names, settled.encodings)?;
    Ok(Heading { block, encodings })
}

/// What the header of a source is made of, or the failures of the first phase that has any. Names stay in the arena, and the source's
/// trees go.
pub fn heading_of<'n>(
    alloc: Global,
    names: &'n Bump,
    text: &[u8],
    top: Option<&str>,
) -> Result<Heading<'n>, JudgeError>
    requires { length text.now < 2 ^ 32 - 1 }
    ensures { Heads (option_copied top.entry) text.now result }
{
    let arena = Bump::new(alloc);
    match judge(alloc, &arena, text, top) {
        Ok(judged) => match kept(alloc, names, judged) {
            Ok(heading) => Ok(heading),
            Err(NoMemory) => Err(JudgeError::NoMemory),
        },
        Err(error) => Err(error),
    }
}
