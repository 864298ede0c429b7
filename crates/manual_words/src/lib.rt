//! What a manual says of items, pins and effects, in words, as they are seen from a word of a block.
#![tactic(auto)]

mod names;
mod sentences;

pub use names::{
    Sight, encoded_by, put_enumeration_item, put_feed, put_field_at, put_field_item, put_item,
    put_path, put_pin, put_pin_name, put_reg_item,
};
pub use sentences::put_points;
