//! The ports and kept registers of a front: their nodes, the lines of the words' addresses, and what a register keeps.
#![tactic(auto)]

mod cleared;
mod drives;
mod laid;
mod pin;
mod shows;
mod words;

pub use cleared::cleared_registers;
pub use drives::drive_in_turn;
pub use laid::port_nodes;
pub use pin::BusPin;
pub use shows::show_in_turn;
pub use words::word_node;
