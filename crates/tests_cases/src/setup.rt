//! What fails in a run.

use crate::lists::{number, parts};

// More than any run writes to one sink, in bytes.
const ROOM: u64 = 100_000;

/// How a sink takes bytes: so many at a call and in all, and none at the call of this number.
#[derive(Clone, Copy)]
pub(crate) struct Stream {
    pub piece: u64,
    pub room: u64,
    pub fails: u64,
}

/// The call of the shelf that fails, the number of spaces in the one file that it holds, or 0 where it holds those that
/// the words name, and how both sinks take bytes.
#[derive(Clone, Copy)]
pub(crate) struct Setup {
    pub fails: u64,
    pub spaces: u64,
    pub out: Stream,
    pub err: Stream,
}

/// A setup in which nothing fails.
pub(crate) fn plain() -> Setup {
    let stream = Stream {
        piece: ROOM,
        room: ROOM,
        fails: u64::MAX,
    };
    Setup {
        fails: u64::MAX,
        spaces: 0,
        out: stream,
        err: stream,
    }
}

fn change_stream(stream: &mut Stream, what: &str, count: u64) -> bool {
    match what {
        "piece" => stream.piece = count,
        "room" => stream.room = count.min(ROOM),
        "fails" => stream.fails = count,
        _ => return false,
    }
    true
}

fn change_shelf(setup: &mut Setup, what: &str, count: u64) -> bool {
    match what {
        "fails" => setup.fails = count,
        "spaces" => setup.spaces = count,
        _ => return false,
    }
    true
}

/// Changes a part of a setup, as in `piece 1`. False where it can't be.
pub(crate) fn change(setup: &mut Setup, part: &str, rest: &str) -> bool {
    let (what, count) = parts(rest);
    let Some(count) = number(count) else {
        return false;
    };
    match part {
        "shelf" => change_shelf(setup, what, count),
        "out" => change_stream(&mut setup.out, what, count),
        "err" => change_stream(&mut setup.err, what, count),
        _ => false,
    }
}
