//! How far the lines of a script are carried out.

ghost use Rattle.std.specs.Prelude.{◌≡◌, ◌≤◌, ◌<◌, IfSome, true, length, option_copied, slice_get};
ghost use Rattle.drive_lang.specs.Steps as steps;
ghost use Rattle.drive_lang.specs.Left.{IsAt, are_held, is_held, left_of, vectors_at};

use crate::order::{Line, Order};

/// The place of a line, and how many of its vectors are over.
#[derive(Clone, Copy, Debug, PartialEq, Eq)]
pub struct Position {
    /// How many lines are over, or the place of the one that is carried out.
    pub line: usize,
    /// How many of its vectors are over.
    pub over: u32,
}

/// How many vectors a line has. It takes no memory.
pub fn vectors_of(order: &Order) -> u32
    ensures { result ≡ steps.vectors_of order.now }
{
    match order {
        Order::Poke { .. } | Order::Peek { .. } | Order::Expect { .. } => 2,
        Order::Set { .. } => 0,
        Order::See { .. } => 1,
        Order::Wait { count } | Order::Reset { count } => *count,
    }
}

/// The line at a place.
pub(crate) fn line_at(lines: &[Line], at: usize) -> Option<&Line>
    ensures line { option_copied result ≡ slice_get lines.now at }
    ensures within { IfSome result (λ _. at < length lines.now) }
{
    lines.get(at)
}

/// Holds a pin at a value, where the line asks for that.
fn hold(order: &Order, held: &mut [u128])
    requires { is_held order.now (length held.old) ≡ true }
    ensures { held.new ≡ steps.held_after order.now held.old }
{
    if let Order::Set { place, value } = order {
        held[*place as usize] = *value;
    }
}

/// Goes on to the next line that has a vector left, or behind the last, and holds what the lines on the way ask for.
pub(crate) fn pass(lines: &[Line], from: Position, held: &mut [u128]) -> Position
    requires held { are_held lines.now (length held.old) ≡ true }
    requires within { from.over ≤ vectors_at lines.now from.line }
    ensures left { left_of lines.now result held.new ≡ left_of lines.now from held.old }
    ensures within { result.over ≤ vectors_at lines.now result.line }
    ensures at { IsAt lines.now result }
{
    let mut now = from;
    while let Some(line) = line_at(lines, now.line) {
        if now.over < vectors_of(&line.order) {
            return now;
        }
        hold(&line.order, held);
        now = Position {
            line: now.line + 1,
            over: 0,
        };
    }
    now
}
