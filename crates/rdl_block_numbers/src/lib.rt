//! The numbers and path texts of nodes and items in the lists of their block.
#![tactic(auto)]

mod field_names;
mod fields;
mod item;
mod laws;
mod listed;
mod numbers;
mod ranks;
mod step;
mod table;
mod texts;

pub use item::ref_item;
pub use laws::fields_in_order;
pub use numbers::{NodeNumbers, node_numbers};
pub use table::path_texts;
pub use texts::PathTexts;
