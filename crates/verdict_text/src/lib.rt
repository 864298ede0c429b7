//! The verdict of a source as text: a line for each failure, with the file, the line, the column, the rule and what it says.
#![tactic(auto)]

mod line_column;
mod lines;

pub use lines::{push_ok, push_verdict};
