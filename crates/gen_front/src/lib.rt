//! What every front of a block shares: its module's text, its netlist behind a bus, and the laws that its runs and its text agree with its machine.
#![tactic(auto)]

mod laws;

pub use laws::text_agrees;
