//! The facts of all fields and signals of a tree: widths, and the greatest numbers of enumerations (SystemRDL 2.0, clause 6).
#![tactic(auto)]

mod body;
mod encoded;
mod facts;
mod greatest;
mod places;
mod table;
mod unit_facts;

pub use encoded::body_round;
pub use facts::facts_of;
pub use places::Places;
pub use table::EnumNumbers;
pub use unit_facts::{fact_of, has_parts};
