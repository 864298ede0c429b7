//! What the tokens of a module say, before it is judged.

use rb_base::{Place, Port};
use v_design::{Decl, Stmt};

/// What a statement spells beyond what it does (IEEE 1364-2005, clause 9.7.4): an assignment nothing, a block its clock,
/// and a block with a reset also the test, whether it is negated, and the net in its last branch.
#[derive(Clone, Copy, Debug)]
pub enum Event<'s> {
    None,
    Clock(&'s [u8]),
    Reset {
        clock: &'s [u8],
        negated: bool,
        test: &'s [u8],
        again: &'s [u8],
    },
}

/// A module as its tokens say it, with the places of its names and statements. A bit number above 255 stands as 255.
#[derive(Drop)]
pub struct Parsed<'s> {
    pub name: &'s [u8],
    pub ports: Vec<Port>,
    pub decls: Vec<Decl>,
    pub stmts: Vec<Stmt>,
    /// For each statement, what else it spells.
    pub events: Vec<Event<'s>>,
    /// The places of the declared names: of the ports, and then of the declarations.
    pub declared: Vec<Place>,
    /// How many tokens stand before the first statement.
    pub before: usize,
}
