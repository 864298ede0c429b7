//! Which enumerations the fields of a block are encoded by (SystemRDL 2.0, 9.10).
#![tactic(auto)]

mod body;
mod distinct;
mod enums;
mod fields;
mod known;
mod meant;
mod numbering;
mod numbers;

pub use fields::encodings_of;
