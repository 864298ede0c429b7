//! The nodes of a tree by the body that they are in and their names, and which fields have a view with a property.
#![tactic(auto)]

mod over_views;
mod table;
mod view_table;

pub use table::{Members, members_of};
pub use view_table::any_view;
