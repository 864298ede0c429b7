//! The assignments of one layer of a body, judged one behind the other, and what each gives its property (SystemRDL 2.0, 5.1.3).
#![tactic(auto)]

mod allowed;
mod defaults;
mod entries;
mod enums;
mod indices;
mod layer;
mod live;
mod locals;
mod meaning;
mod moving;
mod paths;
mod set;
mod steady;
mod taken;
mod values;
mod varying;
mod words;

pub use allowed::Allowed;
pub use defaults::{Defaults, judge_defaults, judge_live_defaults};
pub use entries::judge_entry;
pub use enums::judge_enums;
pub use indices::{bare_name, first_failure};
pub use layer::Layer;
pub use live::{LiveSet, live_defaults, live_locals};
pub use locals::{judge_live_locals, judge_locals};
pub use meaning::meaning_of;
pub use moving::{moved, settings_say};
pub use set::ValidAssignment;
pub use steady::TextView;
pub use taken::AssignedProps;
pub use varying::entries_vary;
