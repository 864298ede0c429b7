//! The netlist of a block's module behind an AXI4-Lite slave port (IHI 0022).
#![tactic(auto)]

mod assembly;
mod laws;
mod places;
mod tables;
mod tied;

pub use assembly::axi;
pub use axi_model::axi_ports;
pub use laws::axi_text_agrees;
