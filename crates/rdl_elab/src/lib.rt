//! The instances of a source: the tree of all of them, or all that fails; and how many there are.
#![tactic(auto)]

mod elaborating;
mod envs;
mod growing;
mod heads;
mod levels;
mod measuring;
mod opening;
mod siblings;
mod surveyed;
mod text;
mod tops;
mod walking;
mod wanted;
mod whole_survey;
mod whole_tree;

pub use elaborating::elaborate;
pub use measuring::measure;
pub use surveyed::{Surveyed, TopSite};
pub use whole_survey::survey;
pub use whole_tree::tree_of;
