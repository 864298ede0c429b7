//! That the register block of such a source is sound.
#![tactic(auto)]

mod apart_words;
mod orders;
mod sound_blocks;
mod sound_references;
mod sound_registers;
mod sound_views;
mod targets;

pub use apart_words::words_are_apart;
pub use orders::{order_has_all_items, order_is_the_blocks};
pub use sound_blocks::blocks_are_sound;
pub use sound_references::{gates_are_sound, references_are_sound};
pub use sound_registers::registers_are_sound;
pub use sound_views::block_fields_are_sound;
pub use targets::targets_have_items;
