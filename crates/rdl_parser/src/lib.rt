//! The syntax tree of a SystemRDL source (SystemRDL 2.0, annex B).
#![tactic(auto)]

mod components;
mod error;
mod instances;
mod laws;
mod properties;
mod reading;

pub use error::ParseError;
pub use laws::one_verdict;
pub use reading::parse;
