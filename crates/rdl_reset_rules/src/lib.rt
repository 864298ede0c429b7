//! The rules on what references and reset signals mean, R3 to R6 and R8, and what resets each field.
#![tactic(auto)]

mod fitting;
mod nearest;
mod references;
mod reset;
mod second;
mod signal;
mod wide;

pub use nearest::nearest_resets;
pub use references::judge_references;
pub use reset::reset_by;
pub use second::judge_second_resets;
pub use signal::is_field_reset;
pub use wide::judge_wide_resets;
