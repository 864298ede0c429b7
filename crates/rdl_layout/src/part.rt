//! The instances of a body, as numbers of bytes.

/// How the children of a container are placed (SystemRDL 2.0, 13.4).
#[derive(Clone, Copy, Debug, PartialEq, Eq)]
pub enum Mode {
    /// One after the other, each at a multiple of its access width.
    Compact,
    /// Each at a multiple of its size, rounded up to a power of two.
    Regalign,
    /// As `Regalign`, and an array at a multiple of its whole size, rounded up.
    Fullalign,
}

/// The elements of one instance: how many there are behind the first, the size of the largest and the greatest compact alignment,
/// in bytes, and what the text of the instance gives.
#[derive(Clone, Copy, Debug, PartialEq, Eq)]
pub struct Part {
    pub others: u64,
    pub size: u128,
    pub access: u128,
    pub at: Option<u64>,
    pub stride: Option<u64>,
    pub align: Option<u64>,
    pub is_array: bool,
}
