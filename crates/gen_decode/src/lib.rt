//! An address decoded: which word it means, and a node for each word.
#![tactic(auto)]

mod runs;
mod spread;
mod words;

pub use spread::hits;
pub use words::{Decoded, decode};
