//! The root of a source: which definition is the top, and assignments that stand bare.
#![tactic(auto)]

mod bare;
mod top;

pub use bare::judge_bare;
pub use top::{Top, find_top};
