//! The failures of a source as sets and as sorted lists, and what is known of the names of a body before its values are.
#![tactic(auto)]

mod error;
mod failures;
mod laws;
mod listing;
mod seen;

pub use error::PhaseError;
pub use failures::Failures;
pub use laws::{collected_once, found_again, put_in_turn};
pub use listing::listed;
pub use seen::{number_seen, value_seen};
