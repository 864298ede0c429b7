//! What a property takes.

/// The values that a property takes. A property without a value is given true. One that takes a boolean and no number
/// reads a number as a boolean, 0 as false, and one that takes a number and no boolean reads true as 1.
#[derive(Clone, Copy, Debug, PartialEq, Eq)]
pub enum Form {
    /// A string.
    Str,
    /// A boolean.
    Flag,
    /// The boolean true alone.
    TrueOnly,
    /// A number.
    Number,
    /// A boolean or a number.
    FlagNumber,
    /// A reference.
    Refer,
    /// A boolean or a reference.
    FlagRefer,
    /// A number or a reference.
    NumberRefer,
    /// A boolean, a number or a reference.
    FlagNumberRefer,
    /// `compact`, `regalign` or `fullalign`.
    AddressingWord,
    /// `rw`, `wr`, `r`, `w`, `rw1`, `w1` or `na`.
    SwWord,
    /// `rw`, `wr`, `r`, `w` or `na`.
    HwWord,
    /// `woset`, `woclr`, `wot`, `wzs`, `wzc`, `wzt`, `wclr` or `wset`.
    WriteWord,
    /// `rclr` or `rset`.
    ReadWord,
    /// `sw` or `hw`.
    Side,
    /// A boolean, or a trigger word before the property's name.
    Intr,
    /// The name of an enumeration.
    EnumName,
}
