//! Numbers of bits.
ghost use Rattle.std.specs.Prelude.{◌≤◌, ◌<◌};

/// A number of bits that is at most 64.
#[derive(Clone, Copy)]
pub struct Width {
    pub bits: u8,
    pub ghost most: { bits ≤ 64 },
}

/// The number of a bit of at most 64.
#[derive(Clone, Copy)]
pub struct Bit {
    pub bits: u8,
    pub ghost less: { bits < 64 },
}
