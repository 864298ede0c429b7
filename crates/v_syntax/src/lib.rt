//! The tokens, the grammar and the parts of a Verilog module of the subset, and what may be wrong with its bytes.
#![tactic(auto)]

mod error;
mod parsed;
mod spot;
mod token;

pub use error::VError;
pub use parsed::{Event, Parsed};
pub use spot::{VClass, VSpot};
pub use token::{VKind, VSpelling, VToken};
