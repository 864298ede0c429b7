//! What is looked up once for a block: the places of its pins and items, its kept values and outputs, and which items are wanted.
#![tactic(auto)]

mod adding;
mod kept;
mod lines;
mod members;
mod needed;
mod ordered;
mod outlets;
mod places;
mod plan;
mod table;

pub use kept::{FieldKept, KeptValue, KeptValues};
pub use lines::{has_line, line_mask, members_in};
pub use needed::{is_wanted, wanted};
pub use ordered::wanted_items;
pub use outlets::Outlet;
pub use plan::{BusPlaces, FieldPlaces, PartPlaces, Plan};
pub use table::{item_place, table_len};
