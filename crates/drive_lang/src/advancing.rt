//! One step after the other.

ghost use Rattle.std.specs.Prelude.{◌≡◌, ◌+◌, ◌≤◌, true, length};
ghost use Rattle.drive_lang.specs.Left.{Takes, are_held, left_of, vectors_at};

use crate::order::{Line, Turn};
use crate::position::{Position, line_at, pass};
use crate::showing::{bus_at, fill, turn_at};

/// Fills the next vector of some lines, of which a part is over, and answers what is asked at it, or `End` where there is none, with the
/// vector as it was. A vector is the numbers of the bus's six inputs and, behind them, those that `held` has for the other inputs, in
/// port order. It takes no memory, and on the whole time in proportion to the lines and vectors.
pub fn advance(lines: &[Line], at: &mut Position, held: &mut [u128], pins: &mut [u128]) -> Turn
    requires held { are_held lines.now (length held.old) ≡ true }
    requires within { at.old.over ≤ vectors_at lines.now at.old.line }
    requires pins { length pins.old ≡ 6 + length held.old }
    ensures taken { Takes (left_of lines.now at.old held.old) (left_of lines.now at.new held.new) result pins.old pins.new }
    ensures within { at.new.over ≤ vectors_at lines.now at.new.line }
{
    let now = pass(lines, *at, held);
    let Some(line) = line_at(lines, now.line) else {
        *at = now;
        return Turn::End;
    };
    let bus = bus_at(&line.order, now.over);
    fill(&bus, held, pins);
    *at = Position {
        line: now.line,
        over: now.over + 1,
    };
    turn_at(line, now.over)
}
