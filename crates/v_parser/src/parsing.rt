//! What the tokens of a module say.

ghost use Rattle.std.specs.Prelude.{◌≡◌, ℕ, Err, ◌+◌, ◌≤◌, length, drop, IfOk, IfErr, OnOk};
ghost use Rattle.rb_grammar.specs.Forms.{Non, Fits};
ghost use Rattle.rb_grammar.specs.Judging.{IsGood, IsWrongAt, IsTooDeepAt};
ghost use Rattle.v_design.specs.Tree.{Tree};
ghost use Rattle.v_syntax.specs.Tokens.{placed};
ghost use Rattle.v_syntax.specs.Grammar.{grammar, nesting, most_open, Module};
ghost use Rattle.v_syntax.specs.Syntax.{IsSyntax};
ghost use Rattle.v_parser.specs.Reading.{StopsThere};

use crate::cursor::Parser;
use crate::depth::first_too_deep;
use rb_grammar::Stop;
use std::alloc::Global;
use thiserror::Error;
use v_syntax::{Parsed, VSpot};

// How many brackets may be open.
const MOST_OPEN: usize = 64;

/// Why tokens are no module of the subset, with how many tokens stand before the one that is named, or want of memory.
#[derive(Clone, Copy, Debug, PartialEq, Eq, Error)]
pub enum ParseError {
    /// The first token with which the tokens do not begin a module, or the end where they are none.
    #[error("a syntax error")]
    Syntax(usize),
    /// The 65th `(` or `{` that is open.
    #[error("nested too deep")]
    TooDeep(usize),
    /// Memory was refused.
    #[error("out of memory")]
    NoMemory,
}

// Why tokens are no module: so many are left where they stop being one, or memory was refused.
#[derive(Clone, Copy)]
enum Unread {
    Syntax(usize),
    NoMemory,
}

// The module of all tokens.
fn read<'s>(alloc: Global, bytes: &'s [u8], tokens: &[VSpot]) -> Result<Parsed<'s>, Unread>
    ensures tree { IfOk result (λ x. (t : Tree) × IsSyntax (placed bytes.now tokens.now) x t) }
    ensures fits { OnOk result (Fits grammar (Non Module) (placed bytes.now tokens.now)) }
    ensures stops { IfErr result (StopsThere (placed bytes.now tokens.now)) }
{
    let mut parser = Parser {
        alloc,
        bytes,
        rest: tokens,
    };
    match parser.module() {
        Ok(module) if parser.rest.is_empty() => Ok(module),
        Ok(_) => Err(Unread::Syntax(parser.count())),
        Err(Stop::Syntax) => Err(Unread::Syntax(parser.count())),
        Err(Stop::NoMemory) => Err(Unread::NoMemory),
    }
}

/// What the tokens of a module say, which are spots of its bytes (IEEE 1364-2005, annex A, as far as the subset goes).
///
/// `Syntax` or `TooDeep` where they say no module or nest brackets too deep, whichever comes first; `NoMemory` where
/// memory is refused.
pub fn parse<'s>(alloc: Global, bytes: &'s [u8], tokens: &[VSpot]) -> Result<Parsed<'s>, ParseError>
    ensures tree { IfOk result (λ x. (t : Tree) × IsSyntax (placed bytes.now tokens.now) x t) }
    ensures good { OnOk result (IsGood grammar nesting most_open (Non Module) (placed bytes.now tokens.now)) }
    ensures accepts { IsGood grammar nesting most_open (Non Module) (placed bytes.now tokens.now) → IfErr result (λ e. e ≡ ParseError.NoMemory) }
    ensures syntax { (k : ℕ) → result ≡ Err (ParseError.Syntax k)
        → (k ≤ length (placed bytes.now tokens.now)) × IsWrongAt grammar nesting most_open (Non Module) (placed bytes.now tokens.now) (drop k (placed bytes.now tokens.now)) }
    ensures too_deep { (k : ℕ) → result ≡ Err (ParseError.TooDeep k) → IsTooDeepAt grammar nesting most_open (Non Module) (placed bytes.now tokens.now) k }
{
    let Some(deep) = first_too_deep(bytes, tokens, MOST_OPEN) else {
        return match read(alloc, bytes, tokens) {
            Ok(module) => Ok(module),
            Err(Unread::Syntax(left)) => Err(ParseError::Syntax(tokens.len() - left)),
            Err(Unread::NoMemory) => Err(ParseError::NoMemory),
        };
    };
    let left = match read(alloc, bytes, &tokens[..=deep]) {
        Ok(_) => return Err(ParseError::TooDeep(deep)),
        Err(Unread::Syntax(left)) => left,
        Err(Unread::NoMemory) => return Err(ParseError::NoMemory),
    };
    if left == 0 {
        return Err(ParseError::TooDeep(deep));
    }
    Err(ParseError::Syntax(deep + 1 - left))
}
