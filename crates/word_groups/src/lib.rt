//! Words of a block that stand together: each with the fields' bits in it, and the like words of all elements of an array as one entry.
#![tactic(auto)]

mod arrays;
mod entries;
mod numbers;
mod parts;
mod paths;
mod places;

pub use arrays::{Group, array_of, entries_of, groups_of};
pub use entries::{Entry, copy_of_entry};
pub use numbers::Numbers;
pub use parts::{Part, Parts, copy_of_part, resval};
pub use paths::{is_index, names_and_indices, push_names, push_shown};
pub use places::Places;
