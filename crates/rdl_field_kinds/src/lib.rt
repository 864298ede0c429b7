//! What kind of field the settings make: its interrupt, its reset value, what reads and writes do, and which outputs it has.
#![tactic(auto)]

mod effects;
mod kinds;
mod outputs;

pub use effects::{on_read, on_write};
pub use kinds::{hardware_first, latch, reset_value};
pub use outputs::shown;
