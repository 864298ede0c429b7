//! The fields and views of a block, one by one.
#![tactic(auto)]

mod classes;
mod facts;
mod feeding;
mod views;

pub use classes::class;
pub use facts::{FieldFacts, field};
pub use feeding::NumberedTree;
pub use views::view;
