//! What references lead to and what refers to what, by numbers, or what fails of rules R1 and R2.
#![tactic(auto)]

mod fields;
mod given_items;
mod known;
mod made;
mod numbering;
mod own;
mod reference_table;
mod references;
mod registers;
mod tables;
mod target_table;

pub use given_items::add_given;
pub use known::BoundTree;
pub use numbering::{Numbers, item_numbers};
pub use reference_table::edges;
pub use references::bind;
pub use target_table::ref_targets;
