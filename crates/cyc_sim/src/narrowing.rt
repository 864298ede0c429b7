//! Programs over values of at most 64 bits.
ghost use Rattle.std.specs.Prelude.{◌≡◌, IfOk};
ghost use Rattle.std.specs.Bool.{OnTrue};
ghost use Rattle.v_design.specs.Seen.{module_seen};
ghost use Rattle.sim_lanes.specs.Narrow.{AreBelow, IsBelow};
ghost use Rattle.cyc_sim.specs.Narrow.{AreNarrow, IsNarrowModule};

use crate::arrangement::Arrangement;
use crate::fitting::{Unfit, bit_of, width_of};
use crate::kinds::{guard_kind, one_kind, two_kind};
use crate::operation::Operation;
use rb_base::Pin;
use sim_lanes::{Bit, Kind, NarrowOperation, Width};
use std::alloc::Global;
use v_design::{Design, VOne, VTwo};

/// Whether an operation reads places below a limit alone.
fn is_below(operation: &NarrowOperation, limit: usize) -> bool
    ensures { OnTrue result (IsBelow limit operation.now) }
{
    (operation.first as usize) < limit
        && (operation.second as usize) < limit
        && (operation.third as usize) < limit
}

/// Whether each operation reads places before its own, where the first one's has this number.
pub(crate) fn are_below(operations: &[NarrowOperation], first: usize) -> bool
    ensures { OnTrue result (AreBelow first operations.now) }
{
    for (index, operation) in operations.iter().enumerate() {
        let Some(limit) = first.checked_add(index) else {
            return false;
        };
        if !is_below(operation, limit) {
            return false;
        }
    }
    true
}

/// Whether no pin has more than 64 bits.
fn are_narrow(pins: &[Pin]) -> bool
    ensures { OnTrue result (AreNarrow pins.now) }
{
    for pin in pins {
        if pin.width > 64 {
            return false;
        }
    }
    true
}

/// Whether no pin and no register of a module has more than 64 bits.
pub(crate) fn is_narrow(design: &Design) -> bool
    ensures { OnTrue result (IsNarrowModule (module_seen design.now)) }
{
    are_narrow(design.inputs()) && are_narrow(design.registers())
}

impl Arrangement {
    ghost use Rattle.std.specs.Prelude.{◌≡◌, ℕ, ◌<◌, IfOk, slice_index};
    ghost use Rattle.std.specs.List.{AllZip};
    ghost use Rattle.cyc_sim.specs.Arranged.{Stands, StandsAt};
    ghost use Rattle.cyc_sim.specs.declared.operation.Operation.TheVariants.{Part, Join, One, Two, Pick, Guard};

    fn part(&self, from: usize, low: u8, width: u8) -> Result<NarrowOperation, Unfit>
        ensures { IfOk result (Stands self.now (Part from low width)) }
    {
        let first = self.place(from)?;
        let width = width_of(width)?;
        let low = bit_of(low)?;
        Ok(NarrowOperation {
            first,
            second: first,
            third: first,
            width,
            low,
            kind: Kind::Part,
        })
    }

    fn join(&self, high: usize, low: usize, width: u8, total: u8) -> Result<NarrowOperation, Unfit>
        ensures { IfOk result (Stands self.now (Join high low width total)) }
    {
        let first = self.place(high)?;
        let second = self.place(low)?;
        let total = width_of(total)?;
        let bits = bit_of(width)?;
        Ok(NarrowOperation {
            first,
            second,
            third: second,
            width: total,
            low: bits,
            kind: Kind::Join,
        })
    }

    fn one(&self, op: VOne, width: u8, of: usize) -> Result<NarrowOperation, Unfit>
        ensures { IfOk result (Stands self.now (One op width of)) }
    {
        let first = self.place(of)?;
        let width = width_of(width)?;
        Ok(NarrowOperation {
            first,
            second: first,
            third: first,
            width,
            low: Bit { bits: 0 },
            kind: one_kind(op),
        })
    }

    fn two(&self, op: VTwo, width: u8, left: usize, right: usize) -> Result<NarrowOperation, Unfit>
        ensures { IfOk result (Stands self.now (Two op width left right)) }
    {
        let first = self.place(left)?;
        let second = self.place(right)?;
        let width = width_of(width)?;
        Ok(NarrowOperation {
            first,
            second,
            third: second,
            width,
            low: Bit { bits: 0 },
            kind: two_kind(op),
        })
    }

    fn pick(&self, test: usize, chosen: usize, other: usize) -> Result<NarrowOperation, Unfit>
        ensures { IfOk result (Stands self.now (Pick test chosen other)) }
    {
        let first = self.place(test)?;
        let second = self.place(chosen)?;
        let third = self.place(other)?;
        Ok(NarrowOperation {
            first,
            second,
            third,
            width: Width { bits: 0 },
            low: Bit { bits: 0 },
            kind: Kind::Pick,
        })
    }

    fn guard(
        &self,
        pin: usize,
        low: bool,
        value: u128,
        next: usize,
    ) -> Result<NarrowOperation, Unfit>
        ensures { IfOk result (Stands self.now (Guard pin low value next)) }
    {
        let first = self.place(pin)?;
        let second = self.place(next)?;
        let third = self.constant(value)?;
        Ok(NarrowOperation {
            first,
            second,
            third,
            width: Width { bits: 0 },
            low: Bit { bits: 0 },
            kind: guard_kind(low),
        })
    }

    /// The narrow operation that stands for an operation, if there is one.
    fn narrow(&self, operation: Operation) -> Result<NarrowOperation, Unfit>
        ensures { IfOk result (Stands self.now operation) }
    {
        match operation {
            Operation::Constant(_) => Err(Unfit::Wide),
            Operation::Part { from, low, width } => self.part(from, low, width),
            Operation::Join {
                high,
                low,
                width,
                total,
            } => self.join(high, low, width, total),
            Operation::One { op, width, of } => self.one(op, width, of),
            Operation::Two {
                op,
                width,
                left,
                right,
            } => self.two(op, width, left, right),
            Operation::Pick {
                test,
                chosen,
                other,
            } => self.pick(test, chosen, other),
            Operation::Guard {
                pin,
                low,
                value,
                next,
            } => self.guard(pin, low, value, next),
        }
    }

    /// The narrow operation that stands for the one of an old place.
    fn narrow_at(&self, old: usize, operations: &[Operation]) -> Result<NarrowOperation, Unfit>
        ensures { IfOk result (StandsAt self.now operations.now old) }
    {
        if old < self.first {
            return Err(Unfit::Wide);
        }
        let index = old - self.first;
        if index < operations.len() {
            self.narrow(operations[index])
        } else {
            Err(Unfit::Wide)
        }
    }

    /// The narrow operations that stand for those in order.
    pub fn operations(
        &self,
        alloc: Global,
        operations: &[Operation],
    ) -> Result<Vec<NarrowOperation>, Unfit>
        ensures { IfOk result (λ v. AllZip (StandsAt self.now operations.now) self.now.order.items v.items) }
    {
        let mut all = Vec::new(alloc);
        for old in &self.order {
            let narrow = self.narrow_at(*old, operations)?;
            all.push(narrow)?;
        }
        Ok(all)
    }
}
