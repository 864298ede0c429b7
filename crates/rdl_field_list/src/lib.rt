//! The fields of a block.
#![tactic(auto)]

mod facts;
mod laws;
mod list;
mod register;
mod tables;

pub use laws::faultless_is_narrow;
pub use list::fields;
