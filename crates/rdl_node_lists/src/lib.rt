//! Lists of nodes that are looked up by a body, a name and indices.
#![tactic(auto)]

mod held;
mod node_list;

pub use held::{By, Held};
pub use node_list::NodeList;
