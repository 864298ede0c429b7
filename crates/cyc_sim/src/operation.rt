//! The operations of a compiled module.
ghost use Rattle.std.specs.Prelude.{◌≡◌, ◌-◌, ◌+◌, ◌*◌, ◌^◌, ◌%◌, ◌≤◌, true, take, length};
ghost use Rattle.v_design.specs.Expr.{value_under};
ghost use Rattle.cyc_sim.specs.Operations.{value_by, result_over, is_within, are_within, values_after};

use v_design::{VOne, VTwo};

/// One step of settling the nets: a value from the values of earlier places.
#[derive(Clone, Copy)]
pub(crate) enum Operation {
    /// A constant.
    Constant(u128),
    /// So many bits of a place, from a lowest one on.
    Part {
        from: usize,
        low: u8,
        width: u8,
    },
    /// A place above another one of so many bits, which have a total of so many.
    Join {
        high: usize,
        low: usize,
        width: u8,
        total: u8,
    },
    /// An operator before an operand of so many bits.
    One {
        op: VOne,
        width: u8,
        of: usize,
    },
    /// An operator between operands of so many bits.
    Two {
        op: VTwo,
        width: u8,
        left: usize,
        right: usize,
    },
    /// One place where the test is not 0, and else another.
    Pick {
        test: usize,
        chosen: usize,
        other: usize,
    },
    /// A constant while a reset's pin asserts it, and else a place.
    Guard {
        pin: usize,
        low: bool,
        value: u128,
        next: usize,
    },
}

/// The lowest bits of a number, so many.
fn lowest(number: u128, width: u8) -> u128
    ensures { result ≡ number % 2 ^ width }
{
    if width >= 128 {
        number
    } else {
        number % (1 << width)
    }
}

/// The greatest number of so many bits.
fn ones(width: u8) -> u128
    requires { width ≤ 128 }
    ensures { result ≡ 2 ^ width - 1 }
{
    if width == 128 {
        u128::MAX
    } else {
        (1 << width) - 1
    }
}

/// A number above another one of so many bits, modulo 2^128.
fn joined(high: u128, low: u128, width: u8) -> u128
    ensures { result ≡ (high * 2 ^ width + low) % 2 ^ 128 }
{
    if width >= 128 {
        low
    } else {
        (high << width).wrapping_add(low)
    }
}

/// An operator before an operand of so many bits.
fn under(op: VOne, width: u8, of: u128) -> u128
    requires { width ≤ 128 }
    ensures { result ≡ value_under op width of }
{
    match op {
        VOne::Not => ones(width).saturating_sub(of),
        VOne::All => u128::from(of == ones(width)),
        VOne::Any => u128::from(of > 0),
        VOne::Odd => u128::from(of.count_ones() % 2),
    }
}

/// An operator between operands of so many bits.
fn over(op: VTwo, width: u8, left: u128, right: u128) -> u128
    ensures { result ≡ result_over op width left right }
{
    match op {
        VTwo::Add => lowest(left.wrapping_add(right), width),
        VTwo::Sub => lowest(left.wrapping_sub(right), width),
        VTwo::And => left & right,
        VTwo::Or => left | right,
        VTwo::Xor => left ^ right,
        VTwo::Eq => u128::from(left == right),
        VTwo::Ne => u128::from(left != right),
        VTwo::Lt => u128::from(left < right),
        VTwo::Le => u128::from(left <= right),
        VTwo::Gt => u128::from(left > right),
        VTwo::Ge => u128::from(left >= right),
    }
}

impl Operation {
    /// The value that it gives over the values of the places before it.
    fn value(self, values: &[u128]) -> u128
        requires { is_within (length values.now) self ≡ true }
        ensures { result ≡ value_by values.now self }
    {
        match self {
            Operation::Constant(value) => value,
            Operation::Part { from, low, width } => lowest(values[from] >> low, width),
            Operation::Join {
                high,
                low,
                width,
                total,
            } => lowest(joined(values[high], values[low], width), total),
            Operation::One { op, width, of } => under(op, width, values[of]),
            Operation::Two {
                op,
                width,
                left,
                right,
            } => over(op, width, values[left], values[right]),
            Operation::Pick {
                test,
                chosen,
                other,
            } => {
                if values[test] == 0 {
                    values[other]
                } else {
                    values[chosen]
                }
            }
            Operation::Guard {
                pin,
                low,
                value,
                next,
            } => {
                let asserted = if low { 0 } else { 1 };
                if values[pin] == asserted {
                    value
                } else {
                    values[next]
                }
            }
        }
    }
}

/// Computes the value of each operation once, in turn, behind the values of the first places.
pub(crate) fn settle(operations: &[Operation], first: usize, values: &mut [u128])
    requires within { are_within first operations.now ≡ true }
    requires sized { length values.old ≡ first + length operations.now }
    ensures { values.new ≡ values_after operations.now (take first values.old) }
{
    for (index, operation) in operations.iter().enumerate() {
        let place = first + index;
        values[place] = operation.value(&values[..place]);
    }
}
