//! Tokens as they are kept beside a tree.

ghost use Rattle.std.specs.Prelude.{◌≡◌};
ghost use Rattle.rdl_tree.specs.Tokens.{terminal_of};
ghost use Rattle.rdl_lexer.specs.Compact.{kind_of, value_of};

use rb_base::Place;
use rdl_tree::{Terminal, Token, TokenKind};
use std::marker::Model;

/// A token in 32 bytes, where a `Token` has 40. Contracts see the token.
#[derive(Drop)]
pub struct CompactToken<'s> {
    text: &'s [u8],
    value: u64,
    place: Place,
    terminal: Terminal,
}

impl<'s> Model for CompactToken<'s> {
    ghost use Rattle.rdl_tree.specs.declared.token.Token.{Token};
    ghost use Rattle.rdl_lexer.specs.Compact.{kind_of};

    ghost Value = { Token };

    ghost view = { λ t. record { kind = kind_of t.terminal t.value; text = t.text; place = t.place } };
}

// The terminal of a kind.
fn terminal_of(kind: TokenKind) -> Terminal
    ensures { result ≡ terminal_of kind }
{
    match kind {
        TokenKind::Word => Terminal::Name,
        TokenKind::Number(_) => Terminal::Number,
        TokenKind::Str => Terminal::Str,
        TokenKind::Mark(mark) => Terminal::Mark(mark),
        TokenKind::Reserved(keyword) => Terminal::Reserved(keyword),
    }
}

// The value of a number, and 0 of what is none.
fn value_of(kind: TokenKind) -> u64
    ensures { result ≡ value_of kind }
{
    match kind {
        TokenKind::Number(value) => value,
        _ => 0,
    }
}

// The kind that has the terminal, and the value if it is a number.
fn kind_of(terminal: Terminal, value: u64) -> TokenKind
    ensures { result ≡ kind_of terminal value }
{
    match terminal {
        Terminal::Name => TokenKind::Word,
        Terminal::Number => TokenKind::Number(value),
        Terminal::Str => TokenKind::Str,
        Terminal::Mark(mark) => TokenKind::Mark(mark),
        Terminal::Reserved(keyword) => TokenKind::Reserved(keyword),
    }
}

impl<'s> CompactToken<'s> {
    /// The token, packed.
    pub fn pack(token: Token<'s>) -> CompactToken<'s>
        ensures { result ≡ token.entry }
    {
        CompactToken {
            text: token.text,
            value: value_of(token.kind),
            place: token.place,
            terminal: terminal_of(token.kind),
        }
    }

    /// The token, unpacked.
    pub fn token(&self) -> Token<'s>
        ensures { result ≡ self.now }
    {
        Token {
            kind: kind_of(self.terminal, self.value),
            text: self.text,
            place: self.place,
        }
    }
}
