//! How a field behaves, and what its behaviour refers to (SystemRDL 2.0, clause 9).

use rb_base::Trigger;

/// A value that a field's behaviour may refer to: of a field, signal or register, by its number in the block.
///
/// `Field` is as wide as the field and `Signal` as the signal; all others have one bit.
#[derive(Clone, Copy, Debug, PartialEq, Eq)]
pub enum RefItem {
    /// A field's value before the edge.
    Field(u32),
    /// A signal's value.
    Signal(u32),
    /// `anded`: whether all bits of the field are 1.
    Anded(u32),
    /// `ored`: whether any bit of the field is 1.
    Ored(u32),
    /// `xored`: whether an odd number of its bits is 1.
    Xored(u32),
    /// `incrthreshold`: whether the counter is at or above its threshold.
    IncrThreshold(u32),
    /// `decrthreshold`: whether the counter is at or below its threshold.
    DecrThreshold(u32),
    /// `overflow`: whether the counter passes its width's end at this edge.
    Overflow(u32),
    /// `underflow`: whether the counter passes 0 downwards at this edge.
    Underflow(u32),
    /// `swmod`: whether the access of the vector writes the field, or reads it with an effect.
    SwMod(u32),
    /// `swacc`: whether the access of the vector reads or writes the field.
    SwAcc(u32),
    /// `intr` of a register: whether a bit of its interrupts counts.
    Intr(u32),
    /// `halt` of a register: whether a bit of its interrupts counts for it.
    Halt(u32),
}

/// Whether a field keeps a value, is what hardware gives at each edge, or is a number.
#[derive(Clone, Copy, Debug, PartialEq, Eq)]
pub enum Class {
    /// It keeps a value between edges.
    Storage,
    /// It has no value of its own, but what its source gives in each vector.
    Wire,
    /// It is its reset value, always.
    Constant,
}

/// What resets a field: the signal of a number, or the bus's PRESETn, and how it does.
///
/// The reset is asserted at 0 where it is `low`, else at 1. One that is `sync` acts at the clock edge alone.
#[derive(Clone, Copy, Debug, PartialEq, Eq)]
pub struct ResetBy {
    /// The number of the signal in [`Block::signals`](crate::Block::signals); PRESETn if there is none.
    pub signal: Option<u32>,
    /// `activelow`, and else `activehigh`.
    pub low: bool,
    /// `sync`, and else `async`.
    pub sync: bool,
}

/// Where a value comes from: nowhere, an input pin of its own, or an item.
#[derive(Clone, Copy, Debug, PartialEq, Eq)]
pub enum Feed {
    /// The property isn't set.
    Off,
    /// It is true: an input pin is made for it.
    Pin,
    /// It refers to this item.
    Item(RefItem),
}

/// When an effect is let through: always, where the feed is 1, or where it is 0.
#[derive(Clone, Copy, Debug, PartialEq, Eq)]
pub enum Gate {
    Always,
    High(Feed),
    Low(Feed),
}

/// Which bits of a value count: all, those where the item is 1, or those where it is 0.
#[derive(Clone, Copy, Debug, PartialEq, Eq)]
pub enum Mask {
    /// All bits: neither property is set.
    Off,
    /// `hwenable`, `enable` or `haltenable`: the bits where the item is 1.
    Enable(RefItem),
    /// `hwmask`, `mask` or `haltmask`: the bits where the item is 0.
    Mask(RefItem),
}

/// How far a counter counts at a pulse: a number, an item, or an input pin of this width in bits.
#[derive(Clone, Copy, Debug, PartialEq, Eq)]
pub enum Amount {
    /// `incrvalue` or `decrvalue` is this number, below 2 to the counter's width; 1 where neither is set.
    Number(u64),
    /// It refers to this item.
    Item(RefItem),
    /// `incrwidth` or `decrwidth`: an input pin of so many bits (1 to the counter's width).
    Pin(u8),
}

/// What a counter's value is compared with.
#[derive(Clone, Copy, Debug, PartialEq, Eq)]
pub enum Level {
    /// A number below 2 to the counter's width.
    Number(u64),
    /// What this item is at the edge.
    Item(RefItem),
}

/// One direction of a counter.
#[derive(Clone, Copy, Debug, PartialEq, Eq)]
pub struct Part {
    /// `incr` or `decr`, or the counter's own pin: it counts where this is 1.
    pub pulse: Feed,
    pub amount: Amount,
}

/// A counter (SystemRDL 2.0, 9.8): its directions, the levels at which it saturates, and its thresholds.
#[derive(Clone, Copy, Debug, PartialEq, Eq)]
pub struct Count {
    /// How it counts up, if it does.
    pub up: Option<Part>,
    /// How it counts down, if it does.
    pub down: Option<Part>,
    /// `incrsaturate`: the level above which it doesn't count.
    pub high: Option<Level>,
    /// `decrsaturate`: the level below which it doesn't count.
    pub low: Option<Level>,
    /// `incrthreshold`: from this level on its threshold is reached upwards.
    pub above: Level,
    /// `decrthreshold`: from this level on its threshold is reached downwards.
    pub below: Level,
}

/// Whether a field is an interrupt (SystemRDL 2.0, 9.9), and how it keeps its events.
///
/// `Bits` keeps each bit, `Whole` the first events until they are cleared, and `Plain` keeps none.
#[derive(Clone, Copy, Debug, PartialEq, Eq)]
pub enum Latch {
    /// It is no interrupt.
    Off,
    /// `stickybit`, with what is an event.
    Bits(Trigger),
    /// `sticky`, with what is an event.
    Whole(Trigger),
    /// `nonsticky`: an interrupt that keeps no event.
    Plain,
}

/// An output of one bit that a field may have beside its value, in port order.
#[derive(Clone, Copy, Debug, PartialEq, Eq, PartialOrd, Ord)]
pub enum Shown {
    Anded,
    Ored,
    Xored,
    IncrThreshold,
    DecrThreshold,
    Overflow,
    Underflow,
    SwMod,
    SwAcc,
}

/// What a software write does (SystemRDL 2.0, 9.6, `onwrite`); `Off` stores the written bits.
#[derive(Clone, Copy, Debug, PartialEq, Eq)]
pub enum OnWrite {
    Off,
    /// Written ones set their bits.
    WoSet,
    /// Written ones clear their bits.
    WoClr,
    /// Written ones turn their bits.
    WoT,
    /// Written zeros set their bits.
    WzS,
    /// Written zeros clear their bits.
    WzC,
    /// Written zeros turn their bits.
    WzT,
    /// Any write clears all bits.
    WClr,
    /// Any write sets all bits.
    WSet,
}

/// What a software read does (SystemRDL 2.0, 9.6, `onread`); `Off` does nothing.
#[derive(Clone, Copy, Debug, PartialEq, Eq)]
pub enum OnRead {
    Off,
    /// A read clears all bits.
    RClr,
    /// A read sets all bits.
    RSet,
}
