//! The sections of a manual page: of a word its bits as lanes and its fields with what they do.
#![tactic(auto)]

mod laws;
mod listing;
mod rows;
mod sections;
mod units;

pub use laws::effects_are_listed;
pub use listing::all_effects;
pub use rows::{Effects, put_desc_at, put_name_at, put_name_inline, put_name_title, put_rows};
pub use sections::{is_shared, put_bits_of, put_label, put_offset, put_sections, sight_of};
pub use units::{AllEffects, Pieces, WordUnit};
