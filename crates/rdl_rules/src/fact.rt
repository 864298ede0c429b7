//! What is known of fields and signals beside their settings.

/// What is known of a field or signal beside its settings.
#[derive(Clone, Copy, Debug)]
pub struct Fact {
    /// Its width, in bits.
    pub width: u64,
    /// Whether a property that only an interrupt has is assigned to it in any layer, be it false or overridden.
    pub has_parts: bool,
    /// Whether an entry of the enumeration that it is encoded by has a number that it can't hold.
    pub has_wide_entry: bool,
}
