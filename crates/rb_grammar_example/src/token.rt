//! The tokens of a source.

ghost use Rattle.std.specs.Prelude.{◌≡◌};
ghost use Rattle.rb_grammar_example.specs.Grammar.{is};

use rb_base::Place;
use rb_grammar::{Bracket, Nesting};

/// A mark: `=`, `=>`, `..`, `[`, `]`, `,` or `;`.
#[derive(Clone, Copy, Debug, PartialEq, Eq)]
pub enum Mark {
    Equals,
    Arrow,
    To,
    Open,
    Close,
    Comma,
    Semicolon,
}

/// What a token is: a name, a decimal number or a mark.
#[derive(Clone, Copy, Debug, PartialEq, Eq)]
pub enum TokenKind {
    Name,
    Number(u64),
    Mark(Mark),
}

/// A token, its bytes and its place in the source.
#[derive(Clone, Copy, Debug)]
pub struct Token<'s> {
    pub kind: TokenKind,
    pub text: &'s [u8],
    pub place: Place,
}

/// A terminal of the grammar.
#[derive(Clone, Copy, Debug, PartialEq, Eq)]
pub enum Terminal {
    Name,
    Number,
    Mark(Mark),
}

impl Token<'_> {
    /// The token is of the terminal.
    pub fn is(&self, terminal: Terminal) -> bool
        ensures { result ≡ is terminal self.now }
    {
        match self.kind {
            TokenKind::Name => terminal == Terminal::Name,
            TokenKind::Number(_) => terminal == Terminal::Number,
            TokenKind::Mark(mark) => terminal == Terminal::Mark(mark),
        }
    }
}

impl Bracket for Token<'_> {
    ghost use Rattle.rb_grammar_example.specs.Grammar.{nesting};

    ghost nesting = { nesting };

    fn nesting(&self) -> Nesting {
        match self.kind {
            TokenKind::Mark(Mark::Open) => Nesting::Opens,
            TokenKind::Mark(Mark::Close) => Nesting::Closes,
            _ => Nesting::Neither,
        }
    }
}
