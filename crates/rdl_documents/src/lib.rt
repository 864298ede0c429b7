//! What a header and a manual are made of, a source's trees let go.
#![tactic(auto)]

mod heading;
mod manual;

pub use heading::{Heading, heading_of};
pub use manual::{Contents, contents_of};
