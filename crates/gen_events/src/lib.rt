//! The netlists of counters and interrupts: what events do to a field.
#![tactic(auto)]

mod edge;
mod events;
mod levels;
mod lines;
mod sums;
mod whole;

pub use edge::{counted, overflow, underflow};
pub use events::latch;
pub use lines::{Masked, any};
pub use whole::{Counted, count};
