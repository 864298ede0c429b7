//! What is kept of the channels.

use rtl_net::Id;

/// The nodes of the port's registers but for the read data: whether a write address, write data, a write response and a read response are
/// there, of one bit, and these.
#[derive(Clone, Copy)]
pub struct ChannelNodes {
    pub aw: Id,
    pub awaddr: Id,
    pub w: Id,
    pub wdata: Id,
    pub wstrb: Id,
    pub b: Id,
    pub bresp: Id,
    pub r: Id,
    pub rresp: Id,
}
