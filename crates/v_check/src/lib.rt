//! Judging a module that was parsed: its names, drivers and widths, and whether its assignments lead back.
#![tactic(auto)]

mod drivers;
mod found;
mod judging;
mod laws;
mod loops;
mod names;
mod nets;
mod undeclared;
mod widths;

pub use judging::check;
pub use laws::{a_problem_is_a_fault, one_first_problem};
