//! The nodes of an AXI4-Lite slave port (IHI 0022): what acts at an edge, which access it is, what is answered, and what is kept of the
//! channels.
#![tactic(auto)]

mod access;
mod acts;
mod answers;
mod kept;
mod nexts;
mod pins;
mod requests;
mod slave;

pub use access::Request;
pub use acts::Acts;
pub use kept::ChannelNodes;
pub use pins::ChannelPins;
pub use slave::{Readies, Slave, next_nodes, read_data_node, ready_nodes, slave_nodes};
