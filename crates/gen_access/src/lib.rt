//! What software makes of a block's fields, as nodes: which words an access reaches, what it makes of the value of each field,
//! and which fields it touches.
#![tactic(auto)]

mod reached;
mod software;
mod touched;

pub use reached::{WordHits, word_hits};
pub use software::{Effect, software_nodes};
pub use touched::marks;
