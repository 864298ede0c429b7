//! A use that gives nodes.

use rdl_tree::{Inst, Name};

/// A use in a body that gives nodes: the number of its definition's site, the instance, its dimensions, and the primary that it is an
/// alias of, if it is one.
#[derive(Clone, Copy)]
pub struct Child<'a> {
    pub site: usize,
    pub inst: &'a Inst<'a>,
    pub dims: &'a [u64],
    pub alias: Option<Name<'a>>,
}
