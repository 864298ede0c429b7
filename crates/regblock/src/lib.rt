//! The register compiler: a command line, files by name, and two texts.
#![tactic(auto)]

mod top_call;

pub use replies::Status;
pub use top_call::run;
