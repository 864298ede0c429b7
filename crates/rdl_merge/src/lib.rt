//! What the layers of a node set, the first assignment deciding (SystemRDL 2.0, 5.1.3), and the widths that it comes to (8.2, 9.7, 10.6).
#![tactic(auto)]

mod adding;
mod instance;
mod laws;
mod layers;
mod registers;
mod settings;
mod texts;
mod units;

pub use adding::{add_entry, has_entry};
pub use instance::add_reset;
pub use laws::entries_say;
pub use layers::{add_defaults, add_given};
pub use registers::judge_register;
pub use units::{judge_unit, unit_width};
