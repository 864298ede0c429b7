//! What a field does beyond storing what is written to it: one effect for each sentence of a manual.

use rb_model::{Feed, Gate, Latch, Level, Mask, OnRead, OnWrite, Part, RefItem, ResetBy, Shown};

/// What a field does, as one sentence says it (SystemRDL 2.0, clause 9).
#[derive(Clone, Copy, Debug)]
pub enum Effect {
    /// The word has the field's bits from the first of these numbers down to the second, where the field has as many as the third says.
    Bits(u8, u8, u8),
    /// `sw` is `w1` or `rw1`: a write acts once after a reset.
    Once,
    /// `onwrite`.
    Writes(OnWrite),
    /// `onread`.
    Reads(OnRead),
    /// `swwe` or `swwel`.
    WritesWhile(Gate),
    /// An alias's view of the field of this number.
    ViewOf(u32),
    /// `singlepulse`.
    Pulse,
    /// `intr`, and how it keeps its events.
    Latches(Latch),
    /// `next` of an interrupt.
    HasInput(RefItem),
    /// `next` of another field.
    Takes(RefItem),
    /// It keeps no value of its own.
    IsWire,
    /// Hardware loads it at every clock edge.
    Loads,
    /// `we` or `wel`.
    LoadsWhile(Gate),
    /// `incr`, with `incrvalue` or `incrwidth`.
    CountsUp(Part),
    /// `incrsaturate`.
    StopsUp(Level),
    /// A counter without `incrsaturate`.
    WrapsUp,
    /// `decr`, with `decrvalue` or `decrwidth`.
    CountsDown(Part),
    /// `decrsaturate`.
    StopsDown(Level),
    /// A counter without `decrsaturate`.
    WrapsDown,
    /// `incrthreshold`.
    UpperThreshold(Level),
    /// `decrthreshold`.
    LowerThreshold(Level),
    /// `hwset`.
    SetWhile(Feed),
    /// `hwclr`.
    ClearedWhile(Feed),
    /// `hwenable` or `hwmask`.
    Keeps(Mask),
    /// `enable` or `mask`.
    Interrupts(Mask),
    /// An interrupt with neither.
    AllInterrupt,
    /// `haltenable` or `haltmask`.
    Halts(Mask),
    /// `precedence = hw`.
    HardwareFirst,
    /// Nothing changes it.
    IsConstant,
    /// `anded` and the like: an output of one bit.
    Shows(Shown),
    /// `resetsignal`, or the signal with `field_reset`.
    ResetBy(ResetBy),
}
