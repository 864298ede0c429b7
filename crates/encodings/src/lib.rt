//! The enumerations that the fields of a block are encoded by, as documents show them (SystemRDL 2.0, 9.10).
#![tactic(auto)]

mod list;

pub use list::{Encoding, Encodings};
