use rb_base::Place;
use thiserror::Error;

/// Why bytes are no well-formed module of the subset, or want of memory (this project's rules).
///
/// Of the first three, which are about the text, the one at the least place is answered. Each of the others is judged
/// where those before it do not fail, and answered at its least place.
#[derive(Clone, Copy, Debug, PartialEq, Eq, Error)]
pub enum VError {
    /// No token begins, a comment is not closed, or a constant is out of range: at its first byte.
    #[error("spelling")]
    Spelling { place: Place },
    /// The first token with which the tokens do not begin a module, or the end where they are none.
    #[error("syntax")]
    Syntax { place: Place },
    /// The 65th `(` or `{` that is open.
    #[error("too deep")]
    TooDeep { place: Place },
    /// A name is declared before: the later one.
    #[error("declared twice")]
    Twice { place: Place },
    /// A name in a statement that is not declared.
    #[error("undeclared")]
    Undeclared { place: Place },
    /// A statement that drives what it may not, or a declared net without a driver.
    #[error("driver")]
    Driver { place: Place },
    /// A statement whose widths do not agree.
    #[error("width")]
    Width { place: Place },
    /// An assignment from whose net one can go on for ever, from a net to one that its assignment reads.
    #[error("loop")]
    Loop { place: Place },
    /// Memory was refused.
    #[error("out of memory")]
    NoMemory,
}
