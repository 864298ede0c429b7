//! What a netlist sees of a block: nodes of its registers and items, which are worth what the block finds at each edge.
//!
//! `Base` is what all nodes are made of: the block's input pins, the access, and the registers of what its fields keep. `Scene`
//! adds the nodes of the block's items, and gives each field and view the nodes that its behaviour refers to. `Finds` says what a
//! block finds at an edge of a netlist, and `IsWorth` what a node is worth in those terms.
#![tactic(auto)]

mod base;
mod counting;
mod item_node;
mod items;
mod kept;
mod lines;
mod making;
mod resets;
mod scene;

pub use base::{Base, Inlet};
pub use items::{Marks, item_nodes};
pub use kept::registers;
pub use scene::Scene;
