//! A run as the text of a value change dump (IEEE 1364-2005, clause 18).
#![tactic(auto)]

mod changes;
mod definitions;
mod digits;
mod write;

pub use changes::{put_vector, vector};
pub use definitions::{head, put_head};
