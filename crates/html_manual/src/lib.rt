//! The manual of a block as one page of HTML, written to a sink.
#![tactic(auto)]

mod addresses;
mod enumerations;
mod groups;
mod head;
mod interrupts;
mod page;
mod signals;
mod style;
mod tables;

pub use page::{Manual, prepare};
