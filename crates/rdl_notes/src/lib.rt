//! The `name` and `desc` of the parts of a tree, in the order of its block's lists, of the groups that they stand in, and of the
//! entries of its enumerations.
#![tactic(auto)]

mod entries;
mod groups;
mod list;
mod note;
mod seen;
mod tree;

pub use tree::notes_of;
