//! What references name (SystemRDL 2.0, 5.1.4 and 9.4 to 9.10), and the rules on where they lead.
#![tactic(auto)]

mod aims;
mod depth;
mod indices;
mod items;
mod leading;
mod node;
mod search;
mod table;
mod tree;
mod view;
mod walk;

pub use aims::{Aim, NamedTree, aim_of};
pub use depth::depth_of;
pub use items::what_named;
pub use leading::{Viewpoint, lead};
pub use node::NamedItem;
pub use search::outer_of;
pub use table::outers_of;
pub use tree::{NamedItems, named_items};
pub use view::view_from;
