//! Which operations are computed again.
use crate::fan::Fan;
use crate::marks::clear;
use crate::moves::{change_all, count_moved, put_narrow, settle_due};
use crate::narrow::NarrowOperation;
use crate::runs::{Run, settle_narrow};
use rb_base::NoMemory;
use std::alloc::Global;

/// Which operations are due since values moved that they read. Where many moved at once it is not calm, and all operations
/// are computed.
#[derive(Drop)]
pub struct Schedule {
    pub fan: Fan,
    pub due: Vec<u64>,
    /// Whether the fan has all readers.
    pub fed: bool,
    pub calm: bool,
    /// Whether few of the numbers moved that were taken last.
    pub few: bool,
}

impl Schedule {
    ghost use Rattle.std.specs.Prelude.{◌≡◌, ℕ, ◌+◌, ◌≤◌, ◌++◌, List, true, take, drop, length, IfOk};
    ghost use Rattle.std.specs.Bool.{OnTrue};
    ghost use Rattle.sim_lanes.specs.Narrow.{AreBelow, narrow_after};
    ghost use Rattle.sim_lanes.specs.Runs.{AreRuns};
    ghost use Rattle.sim_lanes.specs.Schedules.{IsSchedule};
    ghost use Rattle.sim_lanes.specs.declared.narrow.NarrowOperation.{NarrowOperation};

    /// The schedule of operations over so many places, whatever their values are.
    pub fn new(
        alloc: Global,
        operations: &[NarrowOperation],
        places: usize,
    ) -> Result<Schedule, NoMemory>
        ensures { IfOk result (λ s. (first : ℕ) (values : List ℕ) → IsSchedule s first operations.now values) }
    {
        let fan = Fan::of(alloc, operations, places)?;
        let fed = fan.feeds_all(operations);
        let due = vec![in alloc; 0; operations.len() / 64 + 1]?;
        Ok(Schedule {
            fan,
            due,
            fed,
            calm: false,
            few: false,
        })
    }

    /// Whether few of some numbers are others than those that stand from a place on, so that computing what is due takes
    /// less than computing all.
    fn are_few(&self, values: &[u64], at: usize, numbers: &[u64]) -> bool
        requires { at + length numbers.now ≤ length values.now }
    {
        count_moved(values, at, numbers) <= self.due.len().saturating_mul(2)
    }

    /// Whether it is calm and is to stay so.
    fn stays_calm(&self, calm: bool) -> bool
        ensures { OnTrue result (self.now.calm ≡ true) }
    {
        self.calm && calm
    }

    /// Whether it is calm once all operations are computed.
    fn becomes_calm(&self) -> bool
        ensures { OnTrue result (self.now.fed ≡ true) }
    {
        self.fed && self.few
    }

    /// Writes numbers over the values from a place on, and makes the operations due that read a place where another value
    /// stood, if it stays calm.
    fn write(&mut self, values: &mut [u64], at: usize, numbers: &[u64], calm: bool)
        requires { at + length numbers.now ≤ length values.old }
        ensures values { values.new ≡ take at values.old ++ (numbers.now ++ drop (at + length numbers.now) values.old) }
        ensures schedule { (first : ℕ) (os : List NarrowOperation) → at + length numbers.now ≤ first
            → IsSchedule self.old first os values.old → IsSchedule self.new first os values.new }
    {
        let stays = self.stays_calm(calm);
        if stays {
            change_all(&self.fan, &mut self.due, values, at, numbers);
            return;
        }
        self.calm = false;
        put_narrow(values, at, numbers);
    }

    /// Writes numbers over the values from a place on, before the operations are computed.
    pub fn take(&mut self, values: &mut [u64], at: usize, numbers: &[u64])
        requires { at + length numbers.now ≤ length values.old }
        ensures values { values.new ≡ take at values.old ++ (numbers.now ++ drop (at + length numbers.now) values.old) }
        ensures schedule { (first : ℕ) (os : List NarrowOperation) → at + length numbers.now ≤ first
            → IsSchedule self.old first os values.old → IsSchedule self.new first os values.new }
    {
        let few = self.are_few(values, at, numbers);
        self.few = few;
        self.write(values, at, numbers, few);
    }

    /// Writes numbers over the values from a place on, once the operations are computed.
    pub fn put(&mut self, values: &mut [u64], at: usize, numbers: &[u64])
        requires { at + length numbers.now ≤ length values.old }
        ensures values { values.new ≡ take at values.old ++ (numbers.now ++ drop (at + length numbers.now) values.old) }
        ensures schedule { (first : ℕ) (os : List NarrowOperation) → at + length numbers.now ≤ first
            → IsSchedule self.old first os values.old → IsSchedule self.new first os values.new }
    {
        let few = self.calm && self.are_few(values, at, numbers);
        self.write(values, at, numbers, few);
    }

    /// Computes the operations that are due, if it is calm, and answers whether none is left.
    fn settle_calm(
        &mut self,
        operations: &[NarrowOperation],
        first: usize,
        values: &mut [u64],
    ) -> bool
        requires below { AreBelow first operations.now }
        requires sized { length values.old ≡ first + length operations.now }
        ensures front { take first values.new ≡ take first values.old }
        ensures values { IsSchedule self.old first operations.now values.old → OnTrue result (values.new ≡ narrow_after operations.now (take first values.old)) }
        ensures schedule { IsSchedule self.old first operations.now values.old → IsSchedule self.new first operations.now values.new }
    {
        if !self.calm {
            return false;
        }
        settle_due(&self.fan, operations, first, &mut self.due, values)
    }

    /// Computes all operations.
    fn settle_all(
        &mut self,
        runs: &[Run],
        operations: &[NarrowOperation],
        first: usize,
        values: &mut [u64],
    )
        requires below { AreBelow first operations.now }
        requires sized { length values.old ≡ first + length operations.now }
        ensures values { AreRuns operations.now runs.now → values.new ≡ narrow_after operations.now (take first values.old) }
        ensures schedule { AreRuns operations.now runs.now → IsSchedule self.old first operations.now values.old → IsSchedule self.new first operations.now values.new }
    {
        let calm = self.becomes_calm();
        settle_narrow(runs, operations, first, values);
        clear(&mut self.due);
        self.calm = calm;
    }

    /// Computes the operations that are due, behind the values of the first places, or all of them.
    pub fn settle(
        &mut self,
        runs: &[Run],
        operations: &[NarrowOperation],
        first: usize,
        values: &mut [u64],
    )
        requires below { AreBelow first operations.now }
        requires sized { length values.old ≡ first + length operations.now }
        ensures values { AreRuns operations.now runs.now → IsSchedule self.old first operations.now values.old
            → values.new ≡ narrow_after operations.now (take first values.old) }
        ensures schedule { AreRuns operations.now runs.now → IsSchedule self.old first operations.now values.old
            → IsSchedule self.new first operations.now values.new }
    {
        if self.settle_calm(operations, first, values) {
            return;
        }
        self.settle_all(runs, operations, first, values);
    }
}
