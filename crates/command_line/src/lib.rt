//! What the words of a command line ask for, and sources of any number of registers, to measure with.
#![tactic(auto)]

mod flags;
mod forms;
mod lines;
mod totals;
mod words;

pub use lines::source;
pub use totals::summary;
pub use words::{Command, command_of};
