//! Why a source has no tree.

use rb_base::Place;
use rdl_base::{Fault, Rule};
use std::alloc::{AllocError, AllocFailed};
use thiserror::Error;

/// Why there is no tree.
#[derive(Clone, Copy, Debug, PartialEq, Eq, Error)]
pub enum ParseError {
    /// The first lexical fault (SystemRDL 2.0, clause 4).
    #[error("a lexical fault")]
    Lex(Fault),
    /// The first token with which the tokens no longer begin a source, or the source's length where all of them begin
    /// one and are none. The rule is S1, or an O rule that names the token (SystemRDL 2.0, annex B).
    #[error("a syntax error")]
    Syntax { place: Place, rule: Rule },
    /// The first token that nests too deep: the 65th open bracket, or the 65th operator of one expression outside its
    /// inner brackets (this project's rule).
    #[error("nested too deep")]
    TooDeep { place: Place },
    /// Memory was refused.
    #[error("out of memory")]
    NoMemory,
}

impl From<AllocError> for ParseError {
    ghost use Rattle.std.specs.Prelude.{◌≡◌};
    ghost use Rattle.rdl_parser.specs.declared.error.ParseError.TheVariants.{NoMemory};

    ghost from_gives = { λ _ e. e ≡ NoMemory };

    fn from(_: AllocError) -> Self {
        ParseError::NoMemory
    }
}

impl<T: Drop> From<AllocFailed<T>> for ParseError {
    ghost use Rattle.std.specs.Prelude.{◌≡◌};
    ghost use Rattle.rdl_parser.specs.declared.error.ParseError.TheVariants.{NoMemory};

    ghost from_gives = { λ _ e. e ≡ NoMemory };

    fn from(_: AllocFailed<T>) -> Self {
        ParseError::NoMemory
    }
}
