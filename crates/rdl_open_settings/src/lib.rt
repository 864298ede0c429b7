//! What the assignments of open bodies give, judged once for all nodes that have a body, and what decides the properties of a node.
#![tactic(auto)]

mod layers;
mod live;
mod node;
mod rounds;
mod table;
mod texts;

pub use layers::Layers;
pub use node::complete_node;
pub use table::{LayerTable, judge_layers};
