//! The netlist of a block's module behind an APB slave port (IHI 0024B), with no or one wait state.
#![tactic(auto)]

mod access;
mod assembly;
mod data;
mod front;
mod outputs;
mod pins;
mod waiting;

pub use assembly::apb;
pub use data::data_node;
pub use front::{Front, bus_front};
pub use pins::BusPins;
