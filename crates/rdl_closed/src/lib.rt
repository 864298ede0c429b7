//! Expressions and entries of enumerations that name nothing: they mean the same in all bodies.
#![tactic(auto)]

mod closed;

pub use closed::{are_closed, is_closed};
