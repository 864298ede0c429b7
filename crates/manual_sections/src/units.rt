//! What has a section of the page: a word, or the words of all elements of an array of which the page says the same.

use crate::rows::Effects;
use rb_base::Text;
use std::marker::Model;
use word_groups::Entry;

/// The names and indices of a path.
#[derive(Drop)]
pub struct Pieces {
    pub items: Vec<Text>,
}

impl Model for Pieces {
    ghost use Rattle.std.specs.Prelude.{List, ℕ};

    ghost Value = { List (List ℕ) };

    ghost view = { λ all. all.items.items };
}

/// What each of the parts of a word does.
#[derive(Drop)]
pub struct AllEffects {
    pub items: Vec<Effects>,
}

impl Model for AllEffects {
    ghost use Rattle.std.specs.Prelude.{List};
    ghost use Rattle.block_effects.specs.declared.kinds.Effect.{Effect};

    ghost Value = { List (List Effect) };

    ghost view = { λ all. all.items.items };
}

/// What has a section.
#[derive(Drop)]
pub struct WordUnit {
    pub entry: Entry,
    /// The pieces of its path.
    pub pieces: Pieces,
    /// The mark of its place.
    pub mark: Text,
    /// What its parts do.
    pub effects: AllEffects,
}
