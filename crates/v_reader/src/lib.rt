//! Reads a Verilog module of the subset (IEEE 1364-2005).
#![tactic(auto)]

mod design;
mod laws;
mod reading;

pub use laws::{failure_is_no_module, one_failure};
pub use reading::read;
pub use v_lexer::VLexer;
pub use v_syntax::{VError, VKind, VSpelling, VToken};
