//! That the fields, names, words and slots of a source in which no rule on meaning fails are sound.
#![tactic(auto)]

mod clean_fields;
mod first_word;
mod legality;
mod listing;
mod one_slot;
mod path_texts;
mod sound_fields;
mod sound_names;
mod sound_slots;
mod sound_words;
mod word_order;

pub use clean_fields::clean_is_faultless;
pub use first_word::some_word;
pub use legality::references_stand_on_fields;
pub use listing::{items_are_listed, nodes_are_listed};
pub use one_slot::views_in_one_slot;
pub use path_texts::path_texts_differ;
pub use sound_fields::{fields_are_sound, gates_are_fed};
pub use sound_names::names_are_sound;
pub use sound_slots::{
    aliases_have_fields, aliases_have_primaries, slots_are_sound, views_are_of_fields,
    views_have_fields, words_are_sound,
};
pub use sound_words::{
    slots_show_views, slots_stand_apart, views_are_listed, words_are_few, words_have_widths,
};
pub use word_order::{same_addresses, some_words, words_rise};
