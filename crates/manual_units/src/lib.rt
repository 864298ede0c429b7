//! What has a section on a manual page: a word, or the words of all elements of an array of which the page says the same, with the marks of their places.
#![tactic(auto)]

mod likeness;
mod lots;
mod marks;
mod sheet;
mod units;

pub use lots::{Lot, lots_of};
pub use marks::{field_marks, reg_marks};
pub use units::units_of;
