//! Waves as text: the run of a module as a value change dump (IEEE 1364-2005, clause 18), and the table of one that was read.
#![tactic(auto)]

mod edges;
mod lines;
mod table;
mod wave_run;
mod writing;

pub use table::write_table;
pub use wave_run::{WaveRun, prepare};
