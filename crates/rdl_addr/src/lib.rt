//! Where registers, containers and fields stand, the rules on addresses and bits, and what settings and texts say of them.
#![tactic(auto)]

mod laws;
mod map;
mod mode;
mod settings;
mod sharing;
mod text;

pub use laws::{
    fields_have_bits, instances_have_texts, layout_covers, parts_are_groups, readings_agree,
    registers_are_placed, rounding_is_least,
};
pub use map::{Area, Map};
pub use mode::mode_inside;
pub use settings::{changes, gives, number, takes};
pub use sharing::register_side;
pub use text::{part, range_given};
