//! Expressions and paths of SystemRDL, read from tokens (SystemRDL 2.0, annex B).
#![tactic(auto)]

mod expressions;
mod parser;
mod rooms;

pub use parser::{Parser, Sort, add};
pub use rooms::Run;
