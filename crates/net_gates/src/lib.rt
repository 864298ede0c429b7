//! Wires of the operators, of which a constant operand spares what it decides.
#![tactic(auto)]

mod bits;
mod constants;
mod numbers;
mod tree;
mod widths;
mod words;

pub use bits::{both, choose, either, opposite};
pub use constants::{constant_of, full, is_full, is_zero, number, present, zero};
pub use numbers::{difference, less, nonzero, sum};
pub use tree::or_all;
pub use widths::{placed, slice, widened};
pub use words::{differ, flipped, meet, merged};
