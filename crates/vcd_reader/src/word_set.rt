//! Words that differ, in the order in which they came.

use std::alloc::{AllocError, Global};
use std::collections::BTreeMap;
use std::marker::Model;

/// Words that differ, each found by one look-up. Contracts see the list of the words.
#[derive(Drop)]
pub(crate) struct WordSet<'s> {
    words: Vec<&'s [u8]>,
    places: BTreeMap<&'s [u8], usize>,
}

impl<'s> Model for WordSet<'s> {
    ghost use Rattle.std.specs.Prelude.{ℕ, List, map};
    ghost use Rattle.vcd_reader.specs.WordSets.{AreTheirPlaces};

    ghost Value = { List (List ℕ) };

    ghost view = { λ s. map (λ w. w.now) s.words.items };

    ghost invariant = { λ s. AreTheirPlaces s.places (map (λ w. w.now) s.words.items) };
}

impl<'s> WordSet<'s> {
    ghost use Rattle.std.specs.Prelude.{◌≡◌, ◌++◌, ◌∷◌, [], length, IfOk, OnErr, if◌then◌else◌, slice_get, option_copied};
    ghost use Rattle.std.specs.List.{position};
    ghost use Rattle.std.specs.Str.{bytes_eq};
    ghost use Rattle.v_design.specs.Lexemes.{among};

    /// No words yet.
    pub fn new(alloc: Global) -> Self
        ensures { result ≡ [] }
    {
        WordSet {
            words: Vec::new(alloc),
            places: BTreeMap::new(alloc),
        }
    }

    /// How many words there are.
    pub fn len(&self) -> usize
        ensures { result ≡ length self.now }
    {
        self.words.len()
    }

    /// The number of a word, from 0.
    #[inline(never)]
    pub fn find(&self, word: &[u8]) -> Option<usize>
        ensures { result ≡ position (bytes_eq word.now) self.now }
    {
        self.places.get(word).copied()
    }

    /// The word of a number.
    pub fn get(&self, at: usize) -> Option<&'s [u8]>
        ensures { option_copied result ≡ slice_get self.now at }
    {
        self.words.get(at).copied()
    }

    /// Adds a word behind the others, and answers whether it is there before.
    pub fn add(&mut self, word: &'s [u8]) -> Result<bool, AllocError>
        ensures again { IfOk result (λ again. again ≡ among self.old word.now) }
        ensures words { IfOk result (λ again. self.new ≡ (if again then self.old else self.old ++ word.now ∷ [])) }
        ensures kept { OnErr result (self.new ≡ self.old) }
    {
        if self.find(word).is_some() {
            return Ok(true);
        }
        let number = self.words.len();
        self.words.reserve(1)?;
        self.places.insert(word, number)?;
        self.words.push_reserved(word);
        Ok(false)
    }
}
