//! The settings of properties (SystemRDL 2.0, 5.1.3): which assignments apply to a node, where they stand, and which of them decides.
#![tactic(auto)]

mod above;
mod candidate;
mod laws;
mod names;
mod props;
mod rank;
mod related;
mod scopes;
mod setting;

pub use above::assigned_from_above;
pub use candidate::{Candidate, deciding};
pub use laws::{first_related_decides, references_stand_where_taken, settings_have_forms};
pub use names::NodeNames;
pub use props::{PropSetting, Props, setting_of};
pub use rank::Rank;
pub use related::is_related;
pub use scopes::{settings_in_bodies, texts_in_bodies};
pub use setting::Setting;
