//! The lexeme at the front of a text.

ghost use Rattle.std.specs.Prelude.{◌≡◌, ℕ, ◌≤◌, ◌<◌, true, false, IsTrue, length, take, MatchOption, IfOk, IfErr, slice_index};
ghost use Rattle.std.specs.Char.{is_ascii_digit};
ghost use Rattle.rb_grammar.specs.Separators.{begins_separator};
ghost use Rattle.rdl_lexer.specs.Lexemes.{is_letter, is_backslash, is_string_quote, is_closed, word_kind};
ghost use Rattle.rdl_lexer.specs.Reading.{IsLexeme, Breaks, begins, begins_other};

use crate::marks::{mark_at, mark_len};
use crate::numbers::number_at;
use crate::runs::word_len;
use rdl_base::{Keyword, Rule};
use rdl_tree::TokenKind;

// What a lexeme is, its text, and how many bytes it has.
#[derive(Clone, Copy)]
pub(crate) struct Lexeme<'s> {
    pub kind: TokenKind,
    pub text: &'s [u8],
    pub len: usize,
}

fn is_letter(b: u8) -> bool
    ensures { result ≡ is_letter b }
{
    b.is_ascii_alphabetic() || b == b'_'
}

fn word_kind(word: &[u8]) -> TokenKind
    ensures { result ≡ word_kind word.now }
{
    match Keyword::of(word) {
        Some(keyword) => TokenKind::Reserved(keyword),
        None => TokenKind::Word,
    }
}

fn word<'s>(text: &'s [u8]) -> Lexeme<'s>
    requires bare { begins_separator true text.now ≡ false }
    requires letter { IsTrue (begins is_letter text.now) }
    ensures { IsLexeme text.now result.len result.kind result.text.now }
{
    let len = word_len(text);
    let word = &text[..len];
    Lexeme {
        kind: word_kind(word),
        text: word,
        len,
    }
}

// A word behind a backslash.
fn escaped<'s>(text: &'s [u8]) -> Result<Lexeme<'s>, Rule>
    requires bare { begins_separator true text.now ≡ false }
    requires backslash { IsTrue (begins is_backslash text.now) }
    ensures ok { IfOk result (λ l. IsLexeme text.now l.len l.kind l.text.now) }
    ensures err { IfErr result (Breaks text.now) }
{
    if text.len() < 2 || !is_letter(text[1]) {
        return Err(Rule::L1);
    }
    let word = &text[1..];
    let len = word_len(word);
    Ok(Lexeme {
        kind: TokenKind::Word,
        text: &word[..len],
        len: len + 1,
    })
}

// How many bytes a string has behind its first quote, the quote that closes it included.
fn closed_len(text: &[u8]) -> Option<usize>
    ensures { MatchOption result ((n : ℕ) → is_closed false (take n text.now) ≡ false) (λ n. (0 < n) × (n ≤ length text.now) × IsTrue (is_closed false (take n text.now))) }
{
    let mut taken = false;
    for (i, b) in text.iter().enumerate() {
        if taken {
            taken = false;
        } else if *b == b'"' {
            return Some(i + 1);
        } else {
            taken = *b == b'\\';
        }
    }
    None
}

fn string<'s>(text: &'s [u8]) -> Result<Lexeme<'s>, Rule>
    requires bare { begins_separator true text.now ≡ false }
    requires quote { IsTrue (begins is_string_quote text.now) }
    ensures ok { IfOk result (λ l. IsLexeme text.now l.len l.kind l.text.now) }
    ensures err { IfErr result (Breaks text.now) }
{
    let body = &text[1..];
    match closed_len(body) {
        Some(len) => Ok(Lexeme {
            kind: TokenKind::Str,
            text: &body[..len - 1],
            len: len + 1,
        }),
        None => Err(Rule::L3),
    }
}

fn number<'s>(text: &'s [u8]) -> Result<Lexeme<'s>, Rule>
    requires bare { begins_separator true text.now ≡ false }
    requires digit { IsTrue (begins is_ascii_digit text.now) }
    ensures ok { IfOk result (λ l. IsLexeme text.now l.len l.kind l.text.now) }
    ensures err { IfErr result (Breaks text.now) }
{
    let (len, value) = number_at(text);
    match value {
        Some(value) => Ok(Lexeme {
            kind: TokenKind::Number(value),
            text: &text[..len],
            len,
        }),
        None => Err(Rule::L4),
    }
}

// A mark, or what no lexeme begins with.
fn mark<'s>(text: &'s [u8]) -> Result<Lexeme<'s>, Rule>
    requires bare { begins_separator true text.now ≡ false }
    requires other { IsTrue (begins_other text.now) }
    ensures ok { IfOk result (λ l. IsLexeme text.now l.len l.kind l.text.now) }
    ensures err { IfErr result (Breaks text.now) }
{
    if text.starts_with(b"<%") {
        return Err(Rule::L5);
    }
    match mark_at(text) {
        Some(mark) => {
            let len = mark_len(mark);
            Ok(Lexeme {
                kind: TokenKind::Mark(mark),
                text: &text[..len],
                len,
            })
        }
        None if text[0] == b'`' => Err(Rule::L6),
        None => Err(Rule::L1),
    }
}

// The lexeme at the front, or the rule that is broken there.
pub(crate) fn lexeme_at<'s>(text: &'s [u8]) -> Result<Lexeme<'s>, Rule>
    requires some { 0 < length text.now }
    requires bare { begins_separator true text.now ≡ false }
    ensures ok { IfOk result (λ l. IsLexeme text.now l.len l.kind l.text.now) }
    ensures err { IfErr result (Breaks text.now) }
{
    let first = text[0];
    if is_letter(first) {
        return Ok(word(text));
    }
    if first.is_ascii_digit() {
        return number(text);
    }
    match first {
        b'\\' => escaped(text),
        b'"' => string(text),
        _ => mark(text),
    }
}
