//! What settings say of a field: its access, what it is an alias of, how it is read off a map, and whether it keeps a value.
#![tactic(auto)]

mod access;
mod class;
mod given;
mod laws;
mod list;
mod told;
mod view;

pub use access::{hardware_reads, hardware_writes, has_on_write, is_once};
pub use class::{is_wire, touches};
pub use given::{has, has_one_of};
pub use laws::touched_by_views;
pub use list::own_touches;
pub use told::primary;
pub use view::{View, views_in};
