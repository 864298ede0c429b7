//! The uses in a body, item by item: their failures, and the nodes that they give.
#![tactic(auto)]

mod body;
mod child;
mod children;
mod given;
mod item;

pub use body::judge_items;
pub use child::Child;
pub use children::judge_children;
pub use item::{ItemUses, Surroundings, judge_item};
