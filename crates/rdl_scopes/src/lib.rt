//! The names of one body, and which component a name means in the bodies round a place (SystemRDL 2.0, 5.1.4).
#![tactic(auto)]

mod closed;
mod components;
mod entries;
mod enums;
mod scopes;
mod text_defaults;

pub use closed::ClosedEnums;
pub use components::{Components, judge_names};
pub use enums::{Opened, Opening, Outer, open_names};
pub use scopes::{Found, defaults_of, find_component};
pub use text_defaults::{TextDefaults, defaults_among, shared_defaults};
