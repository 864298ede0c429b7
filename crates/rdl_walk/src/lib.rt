//! The walk over the nodes of a source and the elements of its arrays: how many there are, and what fails of them.
#![tactic(auto)]

mod judged;
mod row;
mod visit;
mod walk;

pub use row::{count_of, row_of};
pub use walk::Walk;
