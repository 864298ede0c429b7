//! Tokens as slices of the source.

use rb_base::Place;

/// What a token is (IEEE 1364-2005, clause 3): an identifier, a decimal number, a constant of a width in bits (1 to 128)
/// and a value within it, a reserved word of the subset, or a mark.
#[derive(Clone, Copy, Debug, PartialEq, Eq)]
pub enum VKind {
    Id,
    Dec,
    Const { width: u8, value: u128 },
    Word,
    Mark,
}

/// A token, its bytes, and its place in the source.
#[derive(Clone, Copy, Debug)]
pub struct VToken<'s> {
    pub kind: VKind,
    pub text: &'s [u8],
    pub place: Place,
}

/// No token begins at a place: no lexeme begins there, a comment is not closed, or a constant is out of range.
#[derive(Clone, Copy, Debug, PartialEq, Eq)]
pub struct VSpelling {
    pub place: Place,
}
