//! The lexeme at the front of a text.

ghost use Rattle.std.specs.Prelude.{◌≡◌, ◌<◌, true, false, IsTrue, length, IfSome, IfNone};
ghost use Rattle.std.specs.Char.{is_ascii_digit};
ghost use Rattle.std.specs.List.{take_while};
ghost use Rattle.rb_grammar.specs.Separators.{begins_separator};
ghost use Rattle.v_design.specs.Lexemes.{among, reserved_words, is_name_start, is_name_byte};
ghost use Rattle.v_lexer.specs.Reading.{begins, IsLexeme, HasFault, word_kind};

use crate::marks::mark_len;
use crate::numbers::{constant, decimal_len, suffix_len};
use v_syntax::VKind;

// What a lexeme is, and how many bytes it has.
#[derive(Clone, Copy)]
pub(crate) struct Lexeme {
    pub kind: VKind,
    pub len: usize,
}

fn is_name_start(b: u8) -> bool
    ensures { result ≡ is_name_start b }
{
    b.is_ascii_alphabetic() || b == b'_'
}

fn is_name_byte(b: u8) -> bool
    ensures { result ≡ is_name_byte b }
{
    is_name_start(b) || b.is_ascii_digit() || b == b'$'
}

fn name_len(text: &[u8]) -> usize
    ensures { result ≡ length (take_while is_name_byte text.now) }
{
    text.iter().take_while(|b| is_name_byte(**b)).count()
}

// One of the words of the grammar.
fn is_reserved(word: &[u8]) -> bool
    ensures { result ≡ among reserved_words word.now }
{
    b"module".as_slice() == word
        || b"input".as_slice() == word
        || b"output".as_slice() == word
        || b"wire".as_slice() == word
        || b"reg".as_slice() == word
        || b"assign".as_slice() == word
        || b"always".as_slice() == word
        || b"posedge".as_slice() == word
        || b"negedge".as_slice() == word
        || b"or".as_slice() == word
        || b"if".as_slice() == word
        || b"else".as_slice() == word
        || b"endmodule".as_slice() == word
}

fn word_kind(word: &[u8]) -> VKind
    ensures { result ≡ word_kind word.now }
{
    if is_reserved(word) {
        VKind::Word
    } else {
        VKind::Id
    }
}

// A name or a reserved word.
fn word(text: &[u8]) -> Lexeme
    requires bare { begins_separator true text.now ≡ false }
    requires letter { IsTrue (begins is_name_start text.now) }
    ensures { IsLexeme text.now result.len result.kind }
{
    let len = name_len(text);
    Lexeme {
        kind: word_kind(&text[..len]),
        len,
    }
}

// A number or a constant, None where that is out of range.
fn number(text: &[u8]) -> Option<Lexeme>
    requires bare { begins_separator true text.now ≡ false }
    requires digit { IsTrue (begins is_ascii_digit text.now) }
    ensures some { IfSome result (λ l. IsLexeme text.now l.len l.kind) }
    ensures none { IfNone result (HasFault text.now) }
{
    let size = decimal_len(text);
    let suffix = suffix_len(&text[size..]);
    if suffix == 0 {
        return Some(Lexeme {
            kind: VKind::Dec,
            len: size,
        });
    }
    let len = size + suffix;
    let (width, value) = constant(&text[..size], &text[size + 1..len])?;
    Some(Lexeme {
        kind: VKind::Const { width, value },
        len,
    })
}

// The lexeme at the front, None where no token begins there.
pub(crate) fn lexeme_at(text: &[u8]) -> Option<Lexeme>
    requires some { 0 < length text.now }
    requires bare { begins_separator true text.now ≡ false }
    ensures some { IfSome result (λ l. IsLexeme text.now l.len l.kind) }
    ensures none { IfNone result (HasFault text.now) }
{
    let first = text[0];
    if is_name_start(first) {
        return Some(word(text));
    }
    if first.is_ascii_digit() {
        return number(text);
    }
    match mark_len(text) {
        0 => None,
        len => Some(Lexeme {
            kind: VKind::Mark,
            len,
        }),
    }
}
