//! Items: what a field's behaviour may refer to.

/// An item of a node, by what it is: a signal and a field have a value, a field has nine more, a register two.
#[derive(Clone, Copy, Debug, PartialEq, Eq)]
pub enum What {
    /// The value of a field or signal.
    Value,
    /// The "and" of all bits of a field.
    Anded,
    /// The "or" of all bits of a field.
    Ored,
    /// The exclusive "or" of all bits of a field.
    Xored,
    /// A counter is at or above its threshold.
    IncrThreshold,
    /// A counter is at or below its threshold.
    DecrThreshold,
    /// A counter counts above its greatest value.
    Overflow,
    /// A counter counts below zero.
    Underflow,
    /// Software changes the field.
    SwMod,
    /// Software reads or writes the field.
    SwAcc,
    /// A register's interrupt.
    Intr,
    /// A register's halt.
    Halt,
}

/// An item by its node's number.
#[derive(Clone, Copy, Debug, PartialEq, Eq)]
pub struct ItemOf {
    pub node: u32,
    pub what: What,
}
