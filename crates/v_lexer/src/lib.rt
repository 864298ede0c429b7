//! The tokens of a Verilog module of the subset (IEEE 1364-2005, clause 3).
#![tactic(auto)]

mod lexeme;
mod lexer;
mod marks;
mod numbers;
mod scan;

pub use lexer::VLexer;
pub use numbers::{constant_in, digit_of};
pub use scan::{Scanned, tokens};
