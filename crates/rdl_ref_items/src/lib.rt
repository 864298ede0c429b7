//! Whether the items that settings name are there, and their numbers.
#![tactic(auto)]

mod aliased;
mod fields;
mod interrupt_outputs;
mod missing;
mod named;

pub use aliased::is_in_alias;
pub use interrupt_outputs::{InterruptOutputs, marks};
pub use missing::is_missing;
pub use named::named_item;
