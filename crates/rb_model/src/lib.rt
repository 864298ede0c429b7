//! A register block, and the machine that it is.
#![tactic(auto)]

mod block;
mod kinds;
mod laws;
mod lists;
mod own;
mod port_list;

pub use block::{Block, Field, Reg, Signal, Slot, View, Word};
pub use kinds::{
    Amount, Class, Count, Feed, Gate, Latch, Level, Mask, OnRead, OnWrite, Part, RefItem, ResetBy,
    Shown,
};
pub use laws::{
    edge_fits, edge_is_of_item_values, item_values_are_one, item_values_exist, machine_runs,
    names_differ, one_machine_run, order_is_free, pins_are_by_place,
};
pub use lists::{Fields, Order, Regs, Shows, Signals, Slots, Views, Words};
pub use port_list::{ports, push_block_ports, push_port};
