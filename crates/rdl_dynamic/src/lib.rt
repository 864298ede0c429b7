//! The dynamic assignments of a body, judged one behind the other and put into the entries of their targets (SystemRDL 2.0, 5.1.3).
#![tactic(auto)]

mod body;
mod dynamic;
mod indices;
mod known;
mod laws;
mod marks;
mod pushing;
mod seen;
mod targets;
mod written;

pub use body::judge_dynamics;
pub use indices::judge_indices;
pub use laws::met_at_targets;
pub use targets::judge_target;
pub use written::{Written, written_among};
