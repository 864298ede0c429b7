//! What references lead to, and what refers to what.
#![tactic(auto)]

mod circle;
mod dependencies;
mod graph;
mod item;
mod laws;
mod ordering;
mod refs;

pub use circle::OrderError;
pub use dependencies::Dependencies;
pub use item::{ItemOf, What};
pub use laws::{all_references, circles_go_on, one_target};
pub use ordering::{circling, order};
pub use refs::{Refs, Target};
