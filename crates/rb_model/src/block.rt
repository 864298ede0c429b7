//! A register block: its fields, how software sees them, and the words that it reads and writes.

use crate::kinds::{Class, Count, Feed, Gate, Latch, Mask, OnRead, OnWrite, ResetBy};
use crate::lists::{Fields, Order, Regs, Shows, Signals, Slots, Views, Words};
use rb_base::Text;

/// A signal at the root (`root`) or under the top, of 1 to 64 bits.
#[derive(Drop)]
pub struct Signal {
    /// Its instance's path, names and indices joined as in port names.
    pub path: Text,
    /// `signalwidth`, in bits (1 to 64).
    pub width: u8,
    /// Whether it stands at the root, and else under the top.
    pub root: bool,
}

/// A field of 1 to 64 bits, in the register of number `reg`.
///
/// `hw_first` is `precedence = hw`: hardware has the last word at an edge. `once` is true where one of its views may be
/// written once.
#[derive(Drop)]
pub struct Field {
    /// Its instance's path, names and indices joined as in port names.
    pub path: Text,
    /// The number of its register in [`Block::regs`].
    pub reg: u32,
    /// `fieldwidth`, in bits (1 to 64).
    pub width: u8,
    /// `reset`: the value under an asserted reset, below 2 to the width, if the field has one.
    pub reset: Option<u64>,
    /// `resetsignal`, or the signal with `field_reset`: which reset, and how it acts.
    pub reset_by: ResetBy,
    /// Whether it keeps a value between edges, by `sw`, `hw` and what else changes it.
    pub class: Class,
    /// `hw` is `w` or `rw`: hardware gives it a number.
    pub hw_writes: bool,
    /// `hw` is `r` or `rw`: its value is the output `out$..`.
    pub hw_reads: bool,
    /// `precedence = hw`.
    pub hw_first: bool,
    /// `next`, or its own input pin: the number that hardware gives, as wide as the field.
    pub source: Feed,
    /// `we` or `wel`: when that number is loaded.
    pub gate: Gate,
    /// `counter`, with its properties. A field has at most one of a count, a latch and a pulse.
    pub count: Option<Count>,
    /// `intr`, with `stickybit`, `sticky`, `nonsticky` and the trigger of its events.
    pub latch: Latch,
    /// `hwset`: where it is 1, the value becomes all ones.
    pub set: Feed,
    /// `hwclr`: where it is 1, the value becomes 0; it comes after `hwset`.
    pub clear: Feed,
    /// `hwenable` or `hwmask`: the bits that hardware may change.
    pub keep: Mask,
    /// `singlepulse`: what software writes lasts one vector.
    pub pulse: bool,
    /// `sw` is `w1` or `rw1` in one of its views.
    pub once: bool,
    /// `enable` or `mask`: the bits of an interrupt that count for the register's output `intr`.
    pub enable: Mask,
    /// `haltenable` or `haltmask`: those that count for the output `halt`.
    pub halt: Mask,
    /// `anded`, `ored`, `xored`, `swmod`, `swacc` and a counter's `incrthreshold`, `decrthreshold`, `overflow` and
    /// `underflow` that are outputs, each once and in the order of [`Shown`](crate::Shown).
    pub shown: Shows,
}

/// A register's view of the field of a number: the field itself, or an alias's field of its name.
#[derive(Drop)]
pub struct View {
    /// The field's path, or that of the alias's field.
    pub path: Text,
    /// The number of its field in [`Block::fields`].
    pub field: u32,
    /// Whether it is an alias register's.
    pub alias: bool,
    /// `sw` is `r`, `rw` or `rw1`: software reads the field through it.
    pub reads: bool,
    /// `sw` is `w`, `rw`, `w1` or `rw1`: software writes the field through it.
    pub writes: bool,
    /// `sw` is `w1` or `rw1`: it acts until the field was written once after a reset.
    pub once: bool,
    /// `onwrite`, `woset` or `woclr`.
    pub on_write: OnWrite,
    /// `onread`, `rclr` or `rset`.
    pub on_read: OnRead,
    /// `swwe` or `swwel`: when a write acts.
    pub gate: Gate,
}

/// Bits of a word that are bits of a view: `bits` of them, in the word from `low` on, in the field from `from` on.
#[derive(Clone, Copy, Debug, PartialEq, Eq)]
pub struct Slot {
    /// The number of the view in [`Block::views`].
    pub view: u32,
    /// The lowest of the bits, counted in the word.
    pub low: u8,
    /// The same bit, counted in the field.
    pub from: u8,
    /// How many bits (1 or more); they end within the word and within the field.
    pub bits: u8,
}

/// What software reads or writes as one: word `number` of register `reg`, at a byte address, of 8, 16 or 32 bits.
#[derive(Drop)]
pub struct Word {
    /// Its address in bytes.
    pub address: u32,
    /// `accesswidth`: 8, 16 or 32 bits.
    pub width: u8,
    /// The number of its register in [`Block::regs`].
    pub reg: u32,
    /// Its place among the words of the register, from 0 on, the lowest bits first.
    pub number: u8,
    /// The views that it shows; no two that are read share a bit, and no two that are written.
    pub slots: Slots,
}

/// A register, and whether it has the outputs `intr` and `halt`.
#[derive(Drop)]
pub struct Reg {
    /// Its instance's path, names and indices joined as in port names.
    pub path: Text,
    /// `alias`: it shows another register's fields, and has none of its own.
    pub alias: bool,
    /// Whether one of its fields is an interrupt: the output `intr$..` of one bit.
    pub intr: bool,
    /// Whether one of these also has `haltenable` or `haltmask`: the output `halt$..` of one bit.
    pub halt: bool,
}

/// A register block behind an APB slave port (IHI 0024B) with no or one wait state.
///
/// Lists are in node order; words stand by address, those that a read reaches in `reads` and those that a write reaches
/// in `writes`. `order` has every item once, each behind those that it refers to.
#[derive(Drop)]
pub struct Block {
    /// The top's name, without `$`.
    pub name: Text,
    pub signals: Signals,
    pub fields: Fields,
    pub views: Views,
    pub reads: Words,
    /// Words at the addresses of `reads`.
    pub writes: Words,
    pub regs: Regs,
    pub order: Order,
    /// How many wait states an access has (0 or 1).
    pub waits: u8,
}
