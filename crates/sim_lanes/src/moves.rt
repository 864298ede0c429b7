//! Values that are written where they moved, and the operations that are computed for it.
ghost use Rattle.std.specs.Prelude.{◌≡◌, ℕ, ◌+◌, ◌≤◌, ◌<◌, ◌++◌, List, take, drop, length, slice_set};
ghost use Rattle.std.specs.Bool.{OnTrue};
ghost use Rattle.sim_lanes.specs.Due.{Changes, IsCalm, IsFed};
ghost use Rattle.sim_lanes.specs.Narrow.{AreBelow, narrow_after};
ghost use Rattle.sim_lanes.specs.declared.narrow.NarrowOperation.{NarrowOperation};

use crate::fan::Fan;
use crate::marks::{are_clear, mark_all, unmark};
use crate::narrow::NarrowOperation;

/// Writes a value to a place and, if another one stood there, makes the operations due that read it.
#[inline(always)]
fn change(fan: &Fan, due: &mut [u64], values: &mut [u64], place: usize, value: u64)
    requires { place < length values.old }
    ensures values { values.new ≡ slice_set values.old place value }
    ensures due { Changes fan.now place value values.old due.old due.new }
{
    if values[place] != value {
        values[place] = value;
        mark_all(due, fan.readers_of(place));
    }
}

/// Writes numbers over the values from a place on.
pub fn put_narrow(values: &mut [u64], at: usize, numbers: &[u64])
    requires { at + length numbers.now ≤ length values.old }
    ensures { values.new ≡ take at values.old ++ (numbers.now ++ drop (at + length numbers.now) values.old) }
{
    for (index, number) in numbers.iter().enumerate() {
        values[at + index] = *number;
    }
}

/// As `put_narrow`, and makes the operations due that read a place where another value stood.
pub(crate) fn change_all(fan: &Fan, due: &mut [u64], values: &mut [u64], at: usize, numbers: &[u64])
    requires { at + length numbers.now ≤ length values.old }
    ensures values { values.new ≡ take at values.old ++ (numbers.now ++ drop (at + length numbers.now) values.old) }
    ensures calm { (first : ℕ) (os : List NarrowOperation) → at + length numbers.now ≤ first → IsFed fan.now os
        → IsCalm due.old first os values.old → IsCalm due.new first os values.new }
{
    for (index, number) in numbers.iter().enumerate() {
        change(fan, due, values, at + index, *number);
    }
}

/// How many of some numbers are others than those that stand from a place on.
pub(crate) fn count_moved(values: &[u64], at: usize, numbers: &[u64]) -> usize
    requires { at + length numbers.now ≤ length values.now }
{
    let mut moved: usize = 0;
    for (index, number) in numbers.iter().enumerate() {
        moved = moved.wrapping_add(usize::from(values[at + index] != *number));
    }
    moved
}

/// Computes an operation, which is no longer due, from a word and a bit.
#[inline(always)]
fn settle_bit(
    fan: &Fan,
    operations: &[NarrowOperation],
    first: usize,
    due: &mut [u64],
    word: usize,
    bit: u32,
    values: &mut [u64],
)
    requires below { AreBelow first operations.now }
    requires sized { length values.old ≡ first + length operations.now }
    requires word { word < length due.old }
    requires bit { bit < 64 }
    ensures front { take first values.new ≡ take first values.old }
    ensures calm { IsFed fan.now operations.now → IsCalm due.old first operations.now values.old → IsCalm due.new first operations.now values.new }
{
    unmark(due, word, bit);
    let index = word.saturating_mul(64).saturating_add(bit as usize);
    if index < operations.len() {
        let place = first + index;
        let operation = operations[index];
        let value = operation.value(operation.kind, &values[..place]);
        change(fan, due, values, place, value);
    }
}

/// Computes the operations of a word that are due, of which there are at most 64.
fn settle_word(
    fan: &Fan,
    operations: &[NarrowOperation],
    first: usize,
    due: &mut [u64],
    word: usize,
    values: &mut [u64],
)
    requires below { AreBelow first operations.now }
    requires sized { length values.old ≡ first + length operations.now }
    requires word { word < length due.old }
    ensures front { take first values.new ≡ take first values.old }
    ensures calm { IsFed fan.now operations.now → IsCalm due.old first operations.now values.old → IsCalm due.new first operations.now values.new }
{
    for _turn in 0..64 {
        let bits = due[word];
        if bits == 0 {
            return;
        }
        let bit = bits.trailing_zeros() % 64;
        settle_bit(fan, operations, first, due, word, bit, values);
    }
}

/// Computes the operations that are due, in turn, and answers whether none is left. Those that read a value that moved
/// stand behind its operation, so that one pass is enough.
pub(crate) fn settle_due(
    fan: &Fan,
    operations: &[NarrowOperation],
    first: usize,
    due: &mut [u64],
    values: &mut [u64],
) -> bool
    requires below { AreBelow first operations.now }
    requires sized { length values.old ≡ first + length operations.now }
    ensures front { take first values.new ≡ take first values.old }
    ensures calm { IsFed fan.now operations.now → IsCalm due.old first operations.now values.old → IsCalm due.new first operations.now values.new }
    ensures settled { IsFed fan.now operations.now → IsCalm due.old first operations.now values.old
        → OnTrue result (values.new ≡ narrow_after operations.now (take first values.old)) }
{
    for word in 0..due.len() {
        settle_word(fan, operations, first, due, word, values);
    }
    are_clear(due)
}
