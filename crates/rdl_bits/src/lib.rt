//! The bits of fields in their registers, the registers where they stand, and the rules on both.
#![tactic(auto)]

mod faults;
mod field;
mod laws;
mod list;
mod one;
mod register;
mod settings;
mod table;
mod writes;

pub use faults::address_faults;
pub use laws::{bits_are_judged, bodies_are_judged};
pub use table::{BitTable, bit_table};
