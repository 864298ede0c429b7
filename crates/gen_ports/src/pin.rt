//! Registers and outputs by name and width.

/// A register or an output of a bus: its name, and its width in bits (1 to 128).
#[derive(Clone, Copy)]
pub struct BusPin {
    pub name: &'static [u8],
    pub width: u8,
}
