//! Operations in the making.
ghost use Rattle.std.specs.Prelude.{◌≡◌, ◌+◌, ◌-◌, ◌<◌, ◌≤◌, true, IfOk, OnOk, length, [], ◌∷◌, ◌++◌};
ghost use Rattle.v_design.specs.Expr.{width_under, width_over};
ghost use Rattle.cyc_sim.specs.Operations.{is_within, are_within};

use crate::operation::Operation;
use rb_base::NoMemory;
use std::alloc::Global;
use v_design::{VOne, VTwo};

/// The place of a value, and its width in bits.
#[derive(Clone, Copy)]
pub(crate) struct Wire {
    pub place: usize,
    pub width: u8,
}

/// Operations, the values of which stand behind those of the first places.
#[derive(Drop)]
pub(crate) struct Listing {
    pub first: usize,
    pub operations: Vec<Operation>,
    pub ghost within: { are_within first operations.items ≡ true },
}

/// The width of an operator's result (IEEE 1364-2005, clause 5.4.1).
fn one_width(op: VOne, width: u8) -> u8
    ensures { result ≡ width_under op width }
{
    match op {
        VOne::Not => width,
        VOne::All | VOne::Any | VOne::Odd => 1,
    }
}

/// The width of an operator's result (IEEE 1364-2005, clause 5.4.1).
fn two_width(op: VTwo, width: u8) -> u8
    ensures { result ≡ width_over op width }
{
    match op {
        VTwo::Add | VTwo::Sub | VTwo::And | VTwo::Or | VTwo::Xor => width,
        VTwo::Eq | VTwo::Ne | VTwo::Lt | VTwo::Le | VTwo::Gt | VTwo::Ge => 1,
    }
}

impl Listing {
    ghost use Rattle.std.specs.Prelude.{◌≡◌, ◌+◌, ◌-◌, ◌<◌, ◌≤◌, true, IfOk, OnOk, length, [], ◌∷◌, ◌++◌};
    ghost use Rattle.cyc_sim.specs.Operations.{is_within};
    ghost use Rattle.cyc_sim.specs.Compiled.{Adds, end_of};
    ghost use Rattle.v_design.specs.Expr.{width_under, width_over};
    ghost use Rattle.cyc_sim.specs.declared.operation.Operation.TheVariants.{Constant, Part, Join, One, Two, Pick, Guard};

    /// No operation yet, behind so many first places.
    pub fn new(alloc: Global, first: usize) -> Listing
        ensures first { result.first ≡ first }
        ensures empty { result.operations.items ≡ [] }
    {
        Listing {
            first,
            operations: Vec::new(alloc),
        }
    }

    /// Adds an operation, and answers its place.
    pub fn push(&mut self, operation: Operation) -> Result<usize, NoMemory>
        requires { is_within (end_of self.old) operation ≡ true }
        ensures { IfOk result (Adds self.old self.new operation) }
    {
        // No memory holds so many operations that their number passes 2^64.
        let Some(place) = self.first.checked_add(self.operations.len()) else {
            return Err(NoMemory);
        };
        self.operations.push(operation)?;
        Ok(place)
    }

    /// Adds a constant of so many bits.
    pub fn constant(&mut self, width: u8, value: u128) -> Result<Wire, NoMemory>
        ensures adds { IfOk result (λ w. Adds self.old self.new (Constant value) w.place) }
        ensures width { IfOk result (λ w. w.width ≡ width) }
    {
        let place = self.push(Operation::Constant(value))?;
        Ok(Wire { place, width })
    }

    /// Adds the bits of a wire from one down to another.
    pub fn part(&mut self, from: Wire, high: u8, low: u8) -> Result<Wire, NoMemory>
        requires from { from.place < end_of self.old }
        requires ordered { low ≤ high }
        requires narrow { high < 128 }
        ensures adds { IfOk result (λ w. Adds self.old self.new (Part from.place low (high - low + 1)) w.place) }
        ensures width { IfOk result (λ w. w.width ≡ high - low + 1) }
    {
        let width = high - low + 1;
        let place = self.push(Operation::Part {
            from: from.place,
            low,
            width,
        })?;
        Ok(Wire { place, width })
    }

    /// Adds the concatenation of two wires.
    pub fn join(&mut self, high: Wire, low: Wire) -> Result<Wire, NoMemory>
        requires high { high.place < end_of self.old }
        requires low { low.place < end_of self.old }
        requires narrow { high.width + low.width < 256 }
        ensures adds { IfOk result (λ w. Adds self.old self.new (Join high.place low.place low.width (high.width + low.width)) w.place) }
        ensures width { IfOk result (λ w. w.width ≡ high.width + low.width) }
    {
        let width = high.width + low.width;
        let place = self.push(Operation::Join {
            high: high.place,
            low: low.place,
            width: low.width,
            total: width,
        })?;
        Ok(Wire { place, width })
    }

    /// Adds an operator before a wire.
    pub fn one(&mut self, op: VOne, of: Wire) -> Result<Wire, NoMemory>
        requires of { of.place < end_of self.old }
        requires narrow { of.width ≤ 128 }
        ensures adds { IfOk result (λ w. Adds self.old self.new (One op of.width of.place) w.place) }
        ensures width { IfOk result (λ w. w.width ≡ width_under op of.width) }
    {
        let place = self.push(Operation::One {
            op,
            width: of.width,
            of: of.place,
        })?;
        Ok(Wire {
            place,
            width: one_width(op, of.width),
        })
    }

    /// Adds an operator between two wires.
    pub fn two(&mut self, op: VTwo, left: Wire, right: Wire) -> Result<Wire, NoMemory>
        requires left { left.place < end_of self.old }
        requires right { right.place < end_of self.old }
        requires narrow { left.width ≤ 128 }
        ensures adds { IfOk result
            (λ w. Adds self.old self.new (Two op left.width left.place right.place) w.place) }
        ensures width { IfOk result (λ w. w.width ≡ width_over op left.width) }
    {
        let place = self.push(Operation::Two {
            op,
            width: left.width,
            left: left.place,
            right: right.place,
        })?;
        Ok(Wire {
            place,
            width: two_width(op, left.width),
        })
    }

    /// Adds the choice of a wire by a test.
    pub fn pick(&mut self, test: Wire, chosen: Wire, other: Wire) -> Result<Wire, NoMemory>
        requires test { test.place < end_of self.old }
        requires chosen { chosen.place < end_of self.old }
        requires other { other.place < end_of self.old }
        ensures adds { IfOk result
            (λ w. Adds self.old self.new (Pick test.place chosen.place other.place) w.place) }
        ensures width { IfOk result (λ w. w.width ≡ chosen.width) }
    {
        let place = self.push(Operation::Pick {
            test: test.place,
            chosen: chosen.place,
            other: other.place,
        })?;
        Ok(Wire {
            place,
            width: chosen.width,
        })
    }
}
