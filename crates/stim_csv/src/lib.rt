//! Pin tables: the numbers of input pins, one row for each rising edge of the clock, as comma-separated text.
#![tactic(auto)]

mod alike;
mod cells;
mod error;
mod header;
mod laws;
mod numbers;
mod numeral;
mod ordering;
mod plain;
mod protocol;
mod records;
mod stimulus;

pub use cells::cell;
pub use error::StimError;
pub use laws::vectors_fit;
pub use numbers::Numbers;
pub use numeral::{Cell, is_within};
pub use stimulus::Stimulus;
