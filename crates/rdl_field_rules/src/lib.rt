//! The rules on fields, registers and their aliases: F1 to F14.
#![tactic(auto)]

mod aliases;
mod fields;
mod interrupts;
mod kinds;
mod laws;
mod likes;
mod numbers;
mod primary;
mod pulse;
mod register;
mod views;

pub use laws::registers_agree;
pub use primary::judge_primary;
pub use register::judge_register;
pub use views::{judge_once, judge_view};
