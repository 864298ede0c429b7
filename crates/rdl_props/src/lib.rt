//! The properties of SystemRDL 2.0: which there are, on what they are legal, what they take, and which exclude one
//! another.
#![tactic(auto)]

mod form;
mod groups;
mod names;
mod prop;
mod references;
mod table;

pub use form::Form;
pub use groups::Group;
pub use names::{find, left_out};
pub use prop::Prop;
pub use references::reference_props;
pub use table::{group, legal, takes};
