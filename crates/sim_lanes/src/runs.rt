//! Narrow operations of one kind behind one another.
ghost use Rattle.std.specs.Prelude.{◌≡◌, ◌+◌, ◌≤◌, take, length};
ghost use Rattle.std.specs.Bool.{OnTrue};
ghost use Rattle.sim_lanes.specs.Narrow.{AreBelow, narrow_after};
ghost use Rattle.sim_lanes.specs.Runs.{AreOf, AreRuns};

use crate::narrow::{Kind, NarrowOperation};
use rb_base::NoMemory;
use std::alloc::Global;

/// So many operations of a kind.
#[derive(Clone, Copy)]
pub struct Run {
    pub kind: Kind,
    pub count: usize,
}

/// The runs of operations.
pub fn runs_of(alloc: Global, operations: &[NarrowOperation]) -> Result<Vec<Run>, NoMemory> {
    let mut runs = Vec::new(alloc);
    let mut kind = Kind::Part;
    let mut count: usize = 0;
    for operation in operations {
        if operation.kind != kind {
            runs.push(Run { kind, count })?;
            kind = operation.kind;
            count = 0;
        }
        count = count.saturating_add(1);
    }
    runs.push(Run { kind, count })?;
    Ok(runs)
}

/// Whether operations are of a kind.
fn are_of(operations: &[NarrowOperation], kind: Kind) -> bool
    ensures { OnTrue result (AreOf kind operations.now) }
{
    for operation in operations {
        if operation.kind != kind {
            return false;
        }
    }
    true
}

/// Whether operations are those of runs.
pub fn are_runs(operations: &[NarrowOperation], runs: &[Run]) -> bool
    ensures { OnTrue result (AreRuns operations.now runs.now) }
{
    let mut rest = operations;
    for run in runs {
        if run.count > rest.len() {
            return false;
        }
        let (now, later) = rest.split_at(run.count);
        if !are_of(now, run.kind) {
            return false;
        }
        rest = later;
    }
    if rest.len() > 0 {
        return false;
    }
    true
}

/// Computes the value of each operation once, in turn, behind the values of the first places, if they are of a kind.
#[inline(always)]
fn settle_kind(kind: Kind, operations: &[NarrowOperation], first: usize, values: &mut [u64])
    requires below { AreBelow first operations.now }
    requires sized { first + length operations.now ≤ length values.old }
    ensures { AreOf kind operations.now → take (first + length operations.now) values.new ≡ narrow_after operations.now (take first values.old) }
{
    for (index, operation) in operations.iter().enumerate() {
        let place = first + index;
        values[place] = operation.value(kind, &values[..place]);
    }
}

/// As `settle_kind`, by a loop of its own for each kind that often comes.
fn settle_run(kind: Kind, operations: &[NarrowOperation], first: usize, values: &mut [u64])
    requires below { AreBelow first operations.now }
    requires sized { first + length operations.now ≤ length values.old }
    ensures { AreOf kind operations.now → take (first + length operations.now) values.new ≡ narrow_after operations.now (take first values.old) }
{
    match kind {
        Kind::Part => settle_kind(Kind::Part, operations, first, values),
        Kind::Join => settle_kind(Kind::Join, operations, first, values),
        Kind::Add => settle_kind(Kind::Add, operations, first, values),
        Kind::And => settle_kind(Kind::And, operations, first, values),
        Kind::Or => settle_kind(Kind::Or, operations, first, values),
        Kind::Pick => settle_kind(Kind::Pick, operations, first, values),
        _ => settle_kind(kind, operations, first, values),
    }
}

/// Computes the value of each operation once, in turn, behind the values of the first places, if these are their runs.
pub fn settle_narrow(runs: &[Run], operations: &[NarrowOperation], first: usize, values: &mut [u64])
    requires below { AreBelow first operations.now }
    requires sized { length values.old ≡ first + length operations.now }
    ensures { AreRuns operations.now runs.now → values.new ≡ narrow_after operations.now (take first values.old) }
{
    let mut rest = operations;
    let mut place = first;
    for run in runs {
        let count = run.count.min(rest.len());
        let (now, later) = rest.split_at(count);
        settle_run(run.kind, now, place, values);
        rest = later;
        place += count;
    }
}
