//! The bodies of a source that are open: each once for the bodies round its definition, the definition and the values of its
//! parameters.
#![tactic(auto)]

mod bodies;
mod hints;
mod opening;
mod root;
mod same;
mod sites;
mod sparing;
mod steady;
mod texts;
mod values;

pub use bodies::{Bodies, Body, Site};
pub use root::open_root;
pub use sparing::push_sparing;
pub use values::{all_values, table_of};
