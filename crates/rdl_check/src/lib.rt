//! The rules on meaning, and the register block of a source that breaks none.
#![tactic(auto)]

mod block;
mod checking;
mod lists;

pub use checking::{check, meaning};
