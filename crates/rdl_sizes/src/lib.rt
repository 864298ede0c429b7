//! The sizes and addresses of the registers and containers of a tree, and the rules on strides and alignments.
#![tactic(auto)]

mod address_table;
mod body;
mod gathering;
mod known;
mod lot;
mod modes;
mod table;
mod writing;

pub use address_table::addresses;
pub use known::{Measure, Sizes};
pub use table::sizes;
