//! The simulation of a module, one rising edge of its clock at a time.
#![tactic(auto)]

mod arrangement;
mod compile;
mod fitting;
mod kinds;
mod listing;
mod narrow_program;
mod narrow_sim;
mod narrowing;
mod operation;
mod order;
mod prepare;
mod program;
mod sim;
mod turns;

pub use sim::Sim;
