//! The nodes of a source: their numbers, names, paths, forms, and the nodes that they stand in.
#![tactic(auto)]

mod ancestors;
mod by_body;
mod by_name;
mod forms;
mod laws;
mod node_index;
mod table;

pub use ancestors::lineages_in_order;
pub use forms::{derived_forms_are_single, forms_are_single};
pub use laws::{lineages_are_nodes, names_are_words, paths_differ, row_has_one_number};
pub use node_index::NodeIndex;
pub use table::{Row, rows};
