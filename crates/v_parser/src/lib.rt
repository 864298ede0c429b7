//! What the tokens of a Verilog module of the subset say (IEEE 1364-2005, annex A).
#![tactic(auto)]

mod cursor;
mod depth;
mod expr;
mod laws;
mod module;
mod nets;
mod operators;
mod parsing;
mod statement;

pub use laws::tree_fits;
pub use parsing::{ParseError, parse};
