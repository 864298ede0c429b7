//! A vector of a line, and what is asked at it.

ghost use Rattle.std.specs.Prelude.{◌≡◌, ◌+◌, ◌++◌, ◌==◌, if◌then◌else◌, length};
ghost use Rattle.drive_lang.specs.Steps as steps;
ghost use Rattle.drive_lang.specs.Steps.{numbers_of};
ghost use Rattle.drive_lang.specs.Left as left;

use crate::order::{Line, Order, Turn};

/// The numbers of a transfer's vector, behind so many of its vectors.
fn transfer(address: u32, write: u128, written: u128, over: u32) -> [u128; 6]
    ensures { result ≡ numbers_of (if over == 0 then steps.setup address write written else steps.access address write written) }
{
    let enable = if over == 0 { 0 } else { 1 };
    [1, u128::from(address), 1, enable, write, written]
}

/// The numbers of the bus's inputs at the vector of a line, behind so many of its vectors.
pub(crate) fn bus_at(order: &Order, over: u32) -> [u128; 6]
    ensures { result ≡ numbers_of (left.bus_at order.now over) }
{
    match order {
        Order::Poke { address, value } => transfer(*address, 1, *value, over),
        Order::Peek { address, .. } | Order::Expect { address, .. } => {
            transfer(*address, 0, 0, over)
        }
        Order::Reset { .. } => [0; 6],
        Order::Set { .. } | Order::See { .. } | Order::Wait { .. } => [1, 0, 0, 0, 0, 0],
    }
}

/// What is asked at it.
pub(crate) fn turn_at(line: &Line, over: u32) -> Turn
    ensures { result ≡ steps.turn_of (left.ask_at line.now.number line.now.order over) }
{
    match &line.order {
        Order::Peek { .. } if over != 0 => Turn::Show {
            line: line.number,
            output: 1,
        },
        Order::Expect { value, .. } if over != 0 => Turn::Check {
            line: line.number,
            output: 1,
            wanted: *value,
        },
        Order::See { output, value, .. } => Turn::Check {
            line: line.number,
            output: *output,
            wanted: *value,
        },
        _ => Turn::Plain,
    }
}

/// Fills a vector.
pub(crate) fn fill(bus: &[u128], held: &[u128], pins: &mut [u128])
    requires { length pins.old ≡ length bus.now + length held.now }
    ensures { pins.new ≡ bus.now ++ held.now }
{
    let (front, back) = pins.split_at_mut(bus.len());
    front.copy_from_slice(bus);
    back.copy_from_slice(held);
}
