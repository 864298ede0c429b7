//! A netlist: numbered nodes, each made of nodes with lower numbers.
#![tactic(auto)]

mod bits;
mod laws;
mod names;
mod net;
mod node;
mod nodes;
mod ports;
mod wires;

pub use laws::{has_run, one_run, values_fit};
pub use net::Netlist;
pub use node::{Id, NetExpr, NetNode, NetReset, Occupant, Seat};
