//! The tree of instances.

use crate::item::{Def, Inst, Kind, Source};
use crate::value::Env;
use rb_base::Place;

/// An instance, each element of an array being one of its own.
#[derive(Clone, Copy)]
pub struct Node<'a> {
    /// The number of nodes before it in the order of the text, each before those in it.
    pub id: u32,
    pub name: &'a [u8],
    /// Its indices, first dimension first.
    pub index: &'a [u64],
    pub kind: Kind,
    pub def: &'a Def<'a>,
    /// The instance it comes from; the top has none.
    pub inst: Option<&'a Inst<'a>>,
    /// The number of the register that it is an alias of.
    pub alias: Option<u32>,
    /// What is visible in its body.
    pub env: &'a Env<'a>,
    pub children: &'a [Node<'a>],
    pub place: Place,
}

/// A source with its instances: the signals at the root, then the top.
#[derive(Clone, Copy)]
pub struct Elab<'a> {
    pub source: &'a Source<'a>,
    pub signals: &'a [Node<'a>],
    pub top: &'a Node<'a>,
    /// How many nodes there are.
    pub count: u32,
}
