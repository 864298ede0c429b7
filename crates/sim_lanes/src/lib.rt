//! Operations over values of at most 64 bits, computed all in turn, by runs of one kind, or only where something moved.
#![tactic(auto)]

mod fan;
mod marks;
mod moves;
mod narrow;
mod runs;
mod schedule;
mod width;

pub use moves::put_narrow;
pub use narrow::{Kind, NarrowOperation};
pub use runs::{Run, are_runs, runs_of, settle_narrow};
pub use schedule::Schedule;
pub use width::{Bit, Width};
