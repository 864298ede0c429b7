//! The run of a module over a table of pin values, as text.
#![tactic(auto)]

mod answer;
mod error;
mod running;

pub use answer::{ReadyRun, ready, simulate};
pub use error::SimError;
