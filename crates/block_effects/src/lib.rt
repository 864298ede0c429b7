//! What the fields of a block do, as sentences of a manual say it: effects as values, and the laws that each holds of the register machine and that there are no others.
#![tactic(auto)]

mod kinds;
mod laws;
mod listing;
mod notes;

pub use kinds::Effect;
pub use laws::{effects_hold, hardware_leaves, lanes_are, reads_leave, writes_store};
pub use listing::effects_of;
pub use notes::{Group, Note, Notes};
