//! Where a field's behaviour takes its values from, and how its counter counts.
#![tactic(auto)]

mod amounts;
mod counting;
mod counts;
mod loading;

pub use amounts::{amount, level_or};
pub use counting::{level, pulse};
pub use counts::count;
pub use loading::{feed, gate, mask, source};
