//! What is known of the nodes of a tree before any address is.

use rdl_base::Fault;

/// The size of a register or container, and its access width or the greatest inside it, in bytes.
#[derive(Clone, Copy, Debug, PartialEq, Eq)]
pub struct Measure {
    pub size: u128,
    pub access: u128,
}

/// The sizes of the nodes of a tree, where each stands in the node that it is in, in bytes from that one's start, and the
/// failures of rules A1 and A2. A node that has no address has no size either.
#[derive(Drop)]
pub struct Sizes {
    pub measures: Vec<Measure>,
    pub offsets: Vec<u128>,
    pub faults: Vec<Fault>,
}
