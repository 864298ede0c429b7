//! A netlist as the text of a Verilog module (IEEE 1364-2005).
#![tactic(auto)]

mod expr;
mod lines;
mod module;
mod section;
mod text_sink;
mod write;

pub use module::print;
pub use text_sink::text;
