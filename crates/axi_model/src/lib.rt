//! A block behind an AXI4-Lite slave port (IHI 0022): its ports, the machine that it is, and what follows from them.
#![tactic(auto)]

mod laws;
mod port_list;

pub use laws::{axi_names_differ, axi_runs, one_axi_run, transfers_belong_together};
pub use port_list::axi_ports;
