//! Operations over values of at most 64 bits.
ghost use Rattle.std.specs.Prelude.{◌≡◌, ◌-◌, ◌+◌, ◌*◌, ◌^◌, ◌%◌, ◌≤◌, ◌<◌, if◌then◌else◌, length, slice_index};
ghost use Rattle.sim_lanes.specs.Narrow.{IsBelow, value_by_kind};

use crate::width::{Bit, Width};

/// What a narrow operation computes of the values at its places.
#[derive(Clone, Copy, PartialEq, Eq, PartialOrd, Ord)]
pub enum Kind {
    /// Bits of the first, from a lowest one on.
    Part,
    /// The first above the second, which has so many bits.
    Join,
    Not,
    All,
    Any,
    Odd,
    Add,
    Sub,
    And,
    Or,
    Xor,
    Eq,
    Ne,
    Lt,
    Le,
    Gt,
    Ge,
    /// The third where the first is 0, and else the second.
    Pick,
    /// The third where the first is 1, and else the second.
    Guard,
}

/// As `Operation`, with places below 2^32 and values below 2^64. One that needs fewer places names one of them again.
#[derive(Clone, Copy)]
pub struct NarrowOperation {
    pub first: u32,
    pub second: u32,
    pub third: u32,
    pub width: Width,
    pub low: Bit,
    pub kind: Kind,
}

/// The lowest bits of a number, so many.
fn lowest(number: u64, width: Width) -> u64
    ensures { result ≡ number % 2 ^ width.bits }
{
    if width.bits == 64 {
        number
    } else {
        number % (1 << width.bits)
    }
}

/// The greatest number of so many bits.
fn ones(width: Width) -> u64
    ensures { result ≡ 2 ^ width.bits - 1 }
{
    if width.bits == 64 {
        u64::MAX
    } else {
        (1 << width.bits) - 1
    }
}

/// A number above another one of so many bits, modulo 2^64.
fn stacked(high: u64, low: u64, bits: Bit) -> u64
    ensures { result ≡ (high * 2 ^ bits.bits + low) % 2 ^ 64 }
{
    (high << bits.bits).wrapping_add(low)
}

/// A number above another one of so many bits, which have a total of so many.
fn joined(high: u64, low: u64, bits: Bit, total: Width) -> u64
    ensures { result ≡ (high * 2 ^ bits.bits + low) % 2 ^ 128 % 2 ^ total.bits }
{
    lowest(stacked(high, low, bits), total)
}

/// A sum of so many bits.
fn sum(left: u64, right: u64, width: Width) -> u64
    ensures { result ≡ (left + right) % 2 ^ 128 % 2 ^ width.bits }
{
    lowest(left.wrapping_add(right), width)
}

/// A difference of so many bits.
fn difference(left: u64, right: u64, width: Width) -> u64
    ensures { result ≡ (left + 2 ^ 128 - right) % 2 ^ 128 % 2 ^ width.bits }
{
    lowest(left.wrapping_sub(right), width)
}

/// One number by a test, and else another.
fn chosen(test: bool, number: u64, other: u64) -> u64
    ensures { result ≡ (if test then number else other) }
{
    if test { number } else { other }
}

impl NarrowOperation {
    /// The value that it gives over the values of the places before it, if it is of this kind.
    #[inline(always)]
    pub fn value(self, kind: Kind, values: &[u64]) -> u64
        requires { IsBelow (length values.now) self }
        ensures { result ≡ value_by_kind kind self.low.bits self.width.bits (slice_index values.now self.first) (slice_index values.now self.second) (slice_index values.now self.third) }
    {
        let first = values[self.first as usize];
        let second = values[self.second as usize];
        let third = values[self.third as usize];
        match kind {
            Kind::Part => lowest(first >> self.low.bits, self.width),
            Kind::Join => joined(first, second, self.low, self.width),
            Kind::Not => ones(self.width).saturating_sub(first),
            Kind::All => u64::from(first == ones(self.width)),
            Kind::Any => u64::from(first > 0),
            Kind::Odd => u64::from(first.count_ones() % 2),
            Kind::Add => sum(first, second, self.width),
            Kind::Sub => difference(first, second, self.width),
            Kind::And => first & second,
            Kind::Or => first | second,
            Kind::Xor => first ^ second,
            Kind::Eq => u64::from(first == second),
            Kind::Ne => u64::from(first != second),
            Kind::Lt => u64::from(first < second),
            Kind::Le => u64::from(first <= second),
            Kind::Gt => u64::from(first > second),
            Kind::Ge => u64::from(first >= second),
            Kind::Pick => chosen(first == 0, third, second),
            Kind::Guard => chosen(first == 1, third, second),
        }
    }
}
