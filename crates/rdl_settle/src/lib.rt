//! What every property of every node of a tree is set to (SystemRDL 2.0, 5.1.3), the facts of its fields and signals, and the enumerations
//! of its fields.
#![tactic(auto)]

mod above;
mod completing;
mod names;
mod settling;

pub use settling::settle;
