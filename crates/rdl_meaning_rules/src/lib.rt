//! All failures of the rules on meaning, container by container and node by node.
#![tactic(auto)]

mod accesses;
mod circles;
mod containers;
mod counting;
mod filled;
mod list;
mod references;
mod registers;
mod resets;

pub use accesses::access_failures;
pub use circles::judge_circles;
pub use containers::judge_containers;
pub use counting::judge_count;
pub use list::meaning_failures;
pub use references::judge_all_references;
pub use registers::judge_registers;
pub use resets::{judge_all_resets, judge_root_resets};
