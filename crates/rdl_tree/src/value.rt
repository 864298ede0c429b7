//! Values of expressions, and what names stand for.

use crate::expr::Name;

/// A number from 0 to 2^64 - 1, a boolean, or a string.
#[derive(Clone, Copy, Debug)]
pub enum Value<'a> {
    Number(u64),
    Flag(bool),
    Str(&'a [u8]),
}

/// A parameter and its value.
#[derive(Clone, Copy, Debug)]
pub struct Bound<'a> {
    pub name: Name<'a>,
    pub value: Value<'a>,
}

/// An entry of an enumeration and its number.
#[derive(Clone, Copy, Debug)]
pub struct EntryValue<'a> {
    pub name: Name<'a>,
    pub value: u64,
}

/// An enumeration and its entries in order.
#[derive(Clone, Copy, Debug)]
pub struct EnumValues<'a> {
    pub name: Name<'a>,
    pub entries: &'a [EntryValue<'a>],
}

/// What is visible in a body: its definition's parameters, its enumerations in order, and what is visible round the
/// definition's text.
#[derive(Clone, Copy)]
pub struct Env<'a> {
    pub bound: &'a [Bound<'a>],
    pub enums: &'a [EnumValues<'a>],
    pub outer: Option<&'a Env<'a>>,
}
