//! A block's behaviour as a netlist: its registers driven, its outputs shown, and that it runs as the block's machine.
#![tactic(auto)]

mod built;
mod drives;
mod laws;
mod nodes;
mod shows;

pub use built::core;
pub use drives::drive_nodes;
pub use laws::core_runs;
pub use shows::show_nodes;
