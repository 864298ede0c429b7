//! The tokens of a source.

ghost use Rattle.std.specs.Prelude.{◌≡◌, ℕ, ◌+◌, ◌^◌, ◌<◌, ◌≤◌, Bool, true, false, Some, List, [], ◌∷◌, ◌++◌, length, map, take, drop, IsTrue, IfOk, IfErr, IfSome, OnOk, MatchOption, MatchResult, slice_index};
ghost use Rattle.std.specs.List.{take_while, AllPass};
ghost use Rattle.std.specs.Option.{SomeIff, IfNone};
ghost use Rattle.std.specs.Str.Parse.{digits_value};
ghost use Rattle.std.specs.Char.{is_ascii_digit};
ghost use Rattle.rb_grammar.specs.Separators.{Skips, begins_separator};
ghost use Rattle.rb_grammar.specs.Lexemes.{meaning_of};
ghost use Rattle.rb_grammar.specs.Spelling.{Spells, Faults, StartsWith, IsNext, IsPlace};
ghost use Rattle.rb_grammar_example.specs.Lexemes.{settings, seen, spelling, is_start, is_in_name};
ghost use Rattle.rb_grammar_example.specs.Marks.{NoMark, IsLongestMark};
ghost use Rattle.rb_grammar_example.specs.Faults.{Breaks, FailsBy, FaultsBy};

use crate::token::{Mark, Token, TokenKind};
use bumpalo::Bump;
use bumpalo::collections::into_bump_slice;
use rb_base::Place;
use rb_grammar::separators_len;
use std::alloc::AllocFailed;

/// What is wrong in a source: no lexeme begins, a comment is not closed, or a number needs more than 64 bits.
#[derive(Clone, Copy, Debug, PartialEq, Eq)]
pub enum Rule {
    NoLexeme,
    OpenComment,
    TooLarge,
}

/// What is wrong, and where.
#[derive(Clone, Copy, Debug, PartialEq, Eq)]
pub struct Fault {
    pub place: Place,
    pub rule: Rule,
}

/// Why a source has no tokens: its first fault, or memory was refused.
#[derive(Clone, Copy, Debug, PartialEq, Eq)]
pub enum LexError {
    Fault(Fault),
    NoMemory,
}

impl<T: Drop> From<AllocFailed<T>> for LexError {
    ghost use Rattle.std.specs.Prelude.{◌≡◌};
    ghost use Rattle.rb_grammar_example.specs.declared.lexer.LexError.TheVariants.{NoMemory};

    ghost from_gives = { λ _ e. e ≡ NoMemory };

    fn from(_: AllocFailed<T>) -> Self {
        LexError::NoMemory
    }
}

/// A token, and what is left behind it.
#[derive(Clone, Copy, Debug)]
pub struct Found<'s> {
    pub token: Token<'s>,
    pub rest: &'s [u8],
}

fn is_start(b: u8) -> bool
    ensures { result ≡ is_start b }
{
    b.is_ascii_alphabetic() || b == b'_'
}

fn is_in_name(b: u8) -> bool
    ensures { result ≡ is_in_name b }
{
    is_start(b) || b.is_ascii_digit()
}

fn name_len(text: &[u8]) -> usize
    ensures { result ≡ length (take_while is_in_name text.now) }
{
    text.iter().take_while(|b| is_in_name(**b)).count()
}

fn number_len(text: &[u8]) -> usize
    ensures { result ≡ length (take_while is_ascii_digit text.now) }
{
    text.iter().take_while(|b| b.is_ascii_digit()).count()
}

// The number that decimal digits write, if it has 64 bits at most.
fn number_value(text: &[u8]) -> Option<u64>
    requires { AllPass is_ascii_digit text.now }
    ensures { SomeIff result (digits_value 10 text.now < 2 ^ 64) (digits_value 10 text.now) }
{
    let mut value: u64 = 0;
    for b in text {
        value = value.checked_mul(10)?.checked_add(u64::from(*b - b'0'))?;
    }
    Some(value)
}

// The longest mark at the front.
fn mark_at(text: &[u8]) -> Option<Mark>
    ensures { MatchOption result (NoMark text.now) (IsLongestMark text.now) }
{
    match text {
        [b'=', b'>', ..] => Some(Mark::Arrow),
        [b'.', b'.', ..] => Some(Mark::To),
        [b'=', ..] => Some(Mark::Equals),
        [b'[', ..] => Some(Mark::Open),
        [b']', ..] => Some(Mark::Close),
        [b',', ..] => Some(Mark::Comma),
        [b';', ..] => Some(Mark::Semicolon),
        _ => None,
    }
}

fn mark_len(mark: Mark) -> usize
    ensures { result ≡ length (spelling mark) }
{
    match mark {
        Mark::Arrow | Mark::To => 2,
        _ => 1,
    }
}

// The first bytes as a token, and what is left behind them.
fn split<'s>(left: &'s [u8], len: usize, kind: TokenKind, place: Place) -> Found<'s>
    requires { len ≤ length left.now }
    ensures token { ((seen result.token).token ≡ record { kind = kind; text = take len left.now }) × (result.token.place ≡ place) }
    ensures text { result.token.text.now ≡ take len left.now }
    ensures rest { result.rest.now ≡ drop len left.now }
{
    let (text, rest) = left.split_at(len);
    Found {
        token: Token { kind, text, place },
        rest,
    }
}

// The longest lexeme of what is left.
fn lexeme<'s>(left: &'s [u8], place: Place) -> Result<Found<'s>, Rule>
    requires some { 0 < length left.now }
    requires bare { begins_separator true left.now ≡ false }
    ensures next { IfOk result (λ n. IsNext settings left.now n.token.text.now n.rest.now × (meaning_of settings n.token.text.now ≡ Some (seen n.token).token)) }
    ensures place { IfOk result (λ n. n.token.place ≡ place) }
    ensures fault { IfErr result (λ r. Breaks left.now r) }
{
    if is_start(left[0]) {
        return Ok(split(left, name_len(left), TokenKind::Name, place));
    }
    if left[0].is_ascii_digit() {
        let len = number_len(left);
        return match number_value(&left[..len]) {
            Some(n) => Ok(split(left, len, TokenKind::Number(n), place)),
            None => Err(Rule::TooLarge),
        };
    }
    match mark_at(left) {
        Some(mark) => Ok(split(left, mark_len(mark), TokenKind::Mark(mark), place)),
        None => Err(Rule::NoLexeme),
    }
}

/// The next token behind separators, with its place and what is left behind it; None at the end. The text begins
/// at the place.
pub fn next<'s>(text: &'s [u8], place: Place) -> Result<Option<Found<'s>>, Fault>
    requires { place.0 + length text.now < 2 ^ 32 }
    ensures end { IfOk result (λ next. IfNone next (Skips true text.now [])) }
    ensures next { IfOk result (λ next. IfSome next (λ n. StartsWith settings (place.0 + length text.now) text.now (seen n.token) n.rest.now)) }
    ensures fault { IfErr result (λ f. FailsBy (place.0 + length text.now) text.now f) }
{
    let gap = match separators_len(text, true) {
        Ok(len) => len,
        Err(open) => {
            return Err(Fault {
                place: Place(place.0 + open.0 as u32),
                rule: Rule::OpenComment,
            });
        }
    };
    if gap == text.len() {
        return Ok(None);
    }
    let place = Place(place.0 + gap as u32);
    match lexeme(&text[gap..], place) {
        Ok(next) => Ok(Some(next)),
        Err(rule) => Err(Fault { place, rule }),
    }
}

/// The tokens of a source.
pub fn tokens<'s>(arena: &'s Bump, source: &'s [u8]) -> Result<&'s [Token<'s>], LexError>
    requires { length source.now < 2 ^ 32 }
    ensures spells { IfOk result (λ ts. Spells settings source.now (map seen ts.now)) }
    ensures fault { IfErr result (FaultsBy source.now) }
{
    let mut tokens = Vec::new(arena);
    let mut place = Place(0);
    let mut rest = source;
    'more: loop {
        match next(rest, place) {
            Err(fault) => return Err(LexError::Fault(fault)),
            Ok(None) => break,
            Ok(Some(next)) => {
                tokens.push(next.token)?;
                place = Place((source.len() - next.rest.len()) as u32);
                rest = next.rest;
            }
        }
    }
    Ok(into_bump_slice(tokens))
}
