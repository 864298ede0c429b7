//! The codes of variables.

ghost use Rattle.std.specs.Prelude.{◌≡◌, ℕ, ◌+◌, ◌<◌, ◌^◌, true, IfSome, OnOk, length, slice_index_or};
ghost use Rattle.std.specs.List.{list_all};
ghost use Rattle.vcd_syntax.specs.Words.{is_code, is_code_byte};
ghost use Rattle.vcd_reader.specs.Codes.{IsNoted, code_key};

use crate::word_set::WordSet;
use std::alloc::{AllocError, Global};
use std::marker::Model;

// A byte of a code as a digit, 1 to 94.
fn digit_of(byte: u8) -> Option<usize>
    ensures { IfSome result (λ d. (is_code_byte byte ≡ true) × (d + 32 ≡ byte)) }
{
    if 33 <= byte && byte <= 126 {
        Some(usize::from(byte) - 32)
    } else {
        None
    }
}

// The number that a code of one to three bytes writes in base 95, the least digit first.
fn key_of(code: &[u8]) -> Option<usize>
    ensures code { IfSome result (λ k. is_code code.now ≡ true) }
    ensures key { IfSome result (λ k. (k ≡ code_key code.now) × (k < 2 ^ 32)) }
{
    match code {
        [a] => digit_of(*a),
        [a, b] => Some(digit_of(*a)? + 95 * digit_of(*b)?),
        [a, b, c] => Some(digit_of(*a)? + 95 * (digit_of(*b)? + 95 * digit_of(*c)?)),
        _ => None,
    }
}

// The number of a short code, where the table has it.
fn find_short(places: &[u32], code: &[u8]) -> Option<usize>
    ensures code { IfSome result (λ n. is_code code.now ≡ true) }
    ensures place { IfSome result (λ n. slice_index_or places.now (code_key code.now) 0 ≡ n + 1) }
{
    let key = key_of(code)?;
    let place = *places.get(key)?;
    let number = place.checked_sub(1)?;
    Some(number as usize)
}

// Makes room for a key.
fn make_room(places: &mut Vec<u32>, key: usize) -> Result<(), AllocError>
    requires { key < 2 ^ 32 }
    ensures room { OnOk result (key < length places.new.items) }
    ensures same { (k : ℕ) → slice_index_or places.new.items k 0 ≡ slice_index_or places.old.items k 0 }
{
    if places.len() <= key {
        places.resize(key + 1, 0)?;
    }
    Ok(())
}

// Notes the number of a code, where it is short.
fn note(places: &mut Vec<u32>, code: &[u8], number: usize) -> Result<(), AllocError>
    ensures { IsNoted places.old.items places.new.items code.now number }
{
    let Some(key) = key_of(code) else {
        return Ok(());
    };
    let Ok(place) = u32::try_from(number) else {
        return Ok(());
    };
    let Some(place) = place.checked_add(1) else {
        return Ok(());
    };
    make_room(places, key)?;
    places[key] = place;
    Ok(())
}

/// Codes that differ, in the order in which they came. Contracts see the list of the codes.
///
/// One of at most three bytes is found at its own place in a table, and any other in order. The table has at most
/// 857,375 numbers of four bytes.
#[derive(Drop)]
pub(crate) struct CodeSet<'s> {
    codes: WordSet<'s>,
    places: Vec<u32>,
}

impl<'s> Model for CodeSet<'s> {
    ghost use Rattle.std.specs.Prelude.{ℕ, List};
    ghost use Rattle.vcd_reader.specs.Codes.{ArePlaces};

    ghost Value = { List (List ℕ) };

    ghost view = { λ s. s.codes };

    ghost invariant = { λ s. ArePlaces s.places.items s.codes };
}

impl<'s> CodeSet<'s> {
    ghost use Rattle.std.specs.Prelude.{◌≡◌, ◌++◌, ◌∷◌, [], true, Some, IfSome, IfOk, if◌then◌else◌};
    ghost use Rattle.std.specs.List.{position};
    ghost use Rattle.std.specs.Str.{bytes_eq};
    ghost use Rattle.v_design.specs.Lexemes.{among};
    ghost use Rattle.vcd_syntax.specs.Words.{is_code};

    /// No codes yet.
    pub fn new(alloc: Global) -> Self
        ensures { result ≡ [] }
    {
        CodeSet {
            codes: WordSet::new(alloc),
            places: Vec::new(alloc),
        }
    }

    /// The number of a code of at most three bytes, from 0, where the table has it.
    #[inline(always)]
    pub fn find_short(&self, code: &[u8]) -> Option<usize>
        ensures code { IfSome result (λ n. is_code code.now ≡ true) }
        ensures number { IfSome result (λ n. position (bytes_eq code.now) self.now ≡ Some n) }
    {
        find_short(&self.places, code)
    }

    /// The number of a code, from 0.
    pub fn find(&self, code: &[u8]) -> Option<usize>
        ensures { result ≡ position (bytes_eq code.now) self.now }
    {
        match self.find_short(code) {
            Some(number) => Some(number),
            None => self.codes.find(code),
        }
    }

    /// The number of a code, from 0, which may have been found before.
    #[inline(always)]
    pub fn number_of(&self, code: &[u8], found: Option<usize>) -> Option<usize>
        requires { IfSome found (λ n. position (bytes_eq code.now) self.now ≡ Some n) }
        ensures { result ≡ position (bytes_eq code.now) self.now }
    {
        match found {
            Some(number) => Some(number),
            None => self.find(code),
        }
    }

    /// Adds a code behind the others, and answers whether it is there before.
    pub fn add(&mut self, code: &'s [u8]) -> Result<bool, AllocError>
        ensures again { IfOk result (λ again. again ≡ among self.old code.now) }
        ensures codes { IfOk result (λ again. self.new ≡ (if again then self.old else self.old ++ code.now ∷ [])) }
    {
        let number = self.codes.len();
        let again = self.codes.add(code)?;
        if !again {
            note(&mut self.places, code, number)?;
        }
        Ok(again)
    }
}
