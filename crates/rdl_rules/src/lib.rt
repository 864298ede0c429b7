//! The rules on meaning and the register block of a source, as definitions, and that the block is one for any number of wait states.
#![tactic(auto)]

mod fact;
mod laws;
mod settled;
mod waits;

pub use fact::Fact;
pub use laws::all_targets;
pub use settled::Settled;
pub use waits::blocks_with_waits;
