//! The verdict of a source over six phases, the block of one that breaks no rule, and what a bus of 32 data bits asks of it besides.
#![tactic(auto)]

mod deciding;
mod error;
mod judging;
mod laws;
mod phases;

pub use deciding::verdict;
pub use error::JudgeError;
pub use judging::{Judged, judge, judge_accesses};
pub use laws::one_list;
