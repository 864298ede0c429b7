//! The tokens of a source (SystemRDL 2.0, clause 4).

ghost use Rattle.std.specs.Prelude.{◌≡◌};
ghost use Rattle.rdl_tree.specs.Tokens.{is};

use rb_base::Place;
use rdl_base::Keyword;

/// A mark of the grammar (SystemRDL 2.0, annex B).
#[derive(Clone, Copy, Debug, PartialEq, Eq)]
pub enum Mark {
    /// `{`
    OpenBrace,
    /// `}`
    CloseBrace,
    /// `[`
    OpenBracket,
    /// `]`
    CloseBracket,
    /// `(`
    OpenParen,
    /// `)`
    CloseParen,
    /// `;`
    Semicolon,
    /// `:`
    Colon,
    /// `,`
    Comma,
    /// `.`
    Dot,
    /// `@`
    At,
    /// `#`
    Hash,
    /// `=`
    Equals,
    /// `+=`
    PlusEquals,
    /// `%=`
    PercentEquals,
    /// `->`
    Arrow,
    /// `?`
    Question,
    /// `::`
    ColonColon,
    /// `!`
    Not,
    /// `~`
    Tilde,
    /// `'`
    Quote,
    /// `+`
    Plus,
    /// `-`
    Minus,
    /// `*`
    Star,
    /// `/`
    Slash,
    /// `%`
    Percent,
    /// `**`
    StarStar,
    /// `<<`
    ShiftLeft,
    /// `>>`
    ShiftRight,
    /// `<`
    Less,
    /// `>`
    Greater,
    /// `<=`
    LessEqual,
    /// `>=`
    GreaterEqual,
    /// `==`
    EqualEqual,
    /// `!=`
    NotEqual,
    /// `&&`
    AndAnd,
    /// `||`
    OrOr,
    /// `&`
    And,
    /// `|`
    Or,
    /// `^`
    Caret,
}

/// What a token is.
#[derive(Clone, Copy, Debug, PartialEq, Eq)]
pub enum TokenKind {
    /// A name (SystemRDL 2.0, 4.4).
    Word,
    /// A number and its value, 0 to 2^64 - 1 (SystemRDL 2.0, 4.6).
    Number(u64),
    /// A string (SystemRDL 2.0, 4.5).
    Str,
    Mark(Mark),
    /// A reserved word (SystemRDL 2.0, 4.3).
    Reserved(Keyword),
}

/// A token, a slice of the source. The text of a name that is escaped is what follows the `\`, and that of a string is
/// what stands between its quotes. The place is that of the first byte, the `\` or the quote included.
#[derive(Clone, Copy, Debug)]
pub struct Token<'s> {
    pub kind: TokenKind,
    pub text: &'s [u8],
    pub place: Place,
}

/// What the grammar asks of one token.
#[derive(Clone, Copy, Debug, PartialEq, Eq)]
pub enum Terminal {
    Name,
    Number,
    Str,
    Mark(Mark),
    Reserved(Keyword),
}

impl Token<'_> {
    /// Whether the token is what the grammar asks for.
    pub fn is(&self, terminal: Terminal) -> bool
        ensures { result ≡ is terminal self.now }
    {
        match (terminal, self.kind) {
            (Terminal::Name, TokenKind::Word) => true,
            (Terminal::Number, TokenKind::Number(_)) => true,
            (Terminal::Str, TokenKind::Str) => true,
            (Terminal::Mark(wanted), TokenKind::Mark(mark)) => wanted == mark,
            (Terminal::Reserved(wanted), TokenKind::Reserved(keyword)) => wanted == keyword,
            _ => false,
        }
    }
}
