//! The nodes that a dynamic assignment leads to (SystemRDL 2.0, 5.1.3), by their numbers.
#![tactic(auto)]

mod contents;
mod matching;
mod notes;
mod noting;
mod trails;

pub use contents::{Contents, contents_of, row_at};
pub use trails::Trails;
