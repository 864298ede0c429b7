//! Registers as their words are made of them.

use crate::word::Shape;
use rdl_fields::View;

/// A register: where it stands, what software does with it, and its fields.
#[derive(Drop)]
pub(crate) struct PlacedRegister<'a> {
    pub shape: Shape,
    /// Software reads some field of it, and writes none.
    pub is_read_only: bool,
    /// Software writes some field of it, and no read gives or does anything.
    pub is_write_only: bool,
    pub views: Vec<View<'a>>,
    /// The number of the first view behind its own.
    pub next_view: u32,
}
