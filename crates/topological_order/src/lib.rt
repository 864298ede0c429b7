//! Topological order, or levelization: numbered things, each behind those that it needs.
//!
//! A thing is a number below the count of some lists, of which its own has the numbers of the things that it needs.
#![tactic(auto)]

mod lists;
mod rank;
mod ranking;
mod waiting;

pub use lists::Lists;
pub use rank::Rank;
pub use ranking::{Levels, levelize};
