//! The signals, registers, views and ordered items of a block.
#![tactic(auto)]

mod items;
mod reference;
mod register;
mod register_list;
mod room;
mod signal_list;
mod view_list;

pub use items::{Listed, block_order};
pub use register_list::regs;
pub use signal_list::signals;
pub use view_list::views;
