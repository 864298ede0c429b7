//! What an edge makes of a register block, as nodes: what hardware makes of its fields, the read data, and what each register takes.
#![tactic(auto)]

mod answers;
mod fields;
mod nexts;
mod stacks;
mod steps;
mod values;

pub use answers::answer_node;
pub use fields::hardware_nodes;
pub use nexts::next_nodes;
pub use values::{moved_nodes, used_nodes};
