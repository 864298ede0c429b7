//! The open bodies of a tree of instances: which one each node has, and where its definition stands.
#![tactic(auto)]

mod chains;
mod elements;
mod opening;
mod roots;
mod spots;

pub use roots::open_tree;
pub use spots::{OpenTree, Spot};
