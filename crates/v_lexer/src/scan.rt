//! All tokens of a text.

ghost use Rattle.std.specs.Prelude.{◌≡◌, ◌-◌, ◌^◌, ◌<◌, length, IfOk};
ghost use Rattle.std.specs.List.{AllByRecursion};
ghost use Rattle.std.specs.Option.{option_map};
ghost use Rattle.v_syntax.specs.Tokens.{placed};
ghost use Rattle.v_syntax.specs.Scanned.{Scans};
ghost use Rattle.v_lexer.specs.Reading.{IsOfItsClass, class_of, spot_of};

use crate::lexer::VLexer;
use rb_base::NoMemory;
use std::alloc::Global;
use v_syntax::{VClass, VKind, VSpelling, VSpot, VToken};

/// The tokens of a text up to its end, or up to the place at which no token begins.
#[derive(Drop)]
pub struct Scanned {
    pub tokens: Vec<VSpot>,
    pub fault: Option<VSpelling>,
}

fn class_of(kind: VKind) -> VClass
    ensures { result ≡ class_of kind }
{
    match kind {
        VKind::Id => VClass::Id,
        VKind::Dec => VClass::Dec,
        VKind::Const { .. } => VClass::Const,
        VKind::Word => VClass::Word,
        VKind::Mark => VClass::Mark,
    }
}

// A token without its bytes, which stand in the text.
fn spot_of(token: VToken<'_>) -> VSpot
    requires { length token.text.now < 2 ^ 32 }
    ensures { result ≡ spot_of token.entry }
{
    VSpot {
        place: token.place,
        len: token.text.len() as u32,
        class: class_of(token.kind),
    }
}

/// The tokens of a text of fewer than 2^32 - 1 bytes, as spots of it. `NoMemory` where memory is refused.
pub fn tokens(alloc: Global, bytes: &[u8]) -> Result<Scanned, NoMemory>
    requires { length bytes.now < 2 ^ 32 - 1 }
    ensures scans { IfOk result (λ s. Scans bytes.now (placed bytes.now s.tokens.items) (option_map (λ f. f.place.0) s.fault)) }
    ensures classes { IfOk result (λ s. AllByRecursion (IsOfItsClass bytes.now) s.tokens.items) }
{
    let mut lexer = VLexer::new(bytes);
    let mut tokens = Vec::new(alloc);
    'more: loop {
        match lexer.next() {
            Ok(Some(token)) => tokens.push(spot_of(token))?,
            Ok(None) => {
                return Ok(Scanned {
                    tokens,
                    fault: None,
                });
            }
            Err(fault) => {
                return Ok(Scanned {
                    tokens,
                    fault: Some(fault),
                });
            }
        }
    }
}
