//! The tokens of a SystemRDL source (SystemRDL 2.0, clause 4), and how deep they nest (this project's rule).
#![tactic(auto)]

mod compact;
mod depth;
mod laws;
mod lexeme;
mod lexer;
mod marks;
mod numbers;
mod runs;

pub use compact::CompactToken;
pub use depth::{Effect, Level, MOST, first_too_deep};
pub use laws::spelled_in_order;
pub use lexer::Lexer;
