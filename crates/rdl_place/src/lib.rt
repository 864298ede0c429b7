//! Where the registers, containers and fields of a tree stand, or what fails of the rules on addresses and bits.
#![tactic(auto)]

mod areas;
mod map;
mod tables;

pub use map::place;
