//! The tree of a source.

use rb_base::Place;

/// A name, and its place in the source.
#[derive(Clone, Copy, Debug)]
pub struct Name<'a> {
    pub text: &'a [u8],
    pub place: Place,
}

/// A number, a range of numbers with both its ends, a name, or values in brackets.
#[derive(Clone, Copy)]
pub enum Value<'a> {
    Number(u64),
    Range(u64, u64),
    Name(Name<'a>),
    List(&'a [Value<'a>]),
}

/// What a name is bound to.
#[derive(Clone, Copy)]
pub enum Bound<'a> {
    Value(Value<'a>),
    Alias(Name<'a>),
}

/// A name and what it is bound to.
#[derive(Clone, Copy)]
pub struct Entry<'a> {
    pub name: Name<'a>,
    pub bound: Bound<'a>,
}

/// All entries of a source.
#[derive(Clone, Copy)]
pub struct Source<'a> {
    pub entries: &'a [Entry<'a>],
}
