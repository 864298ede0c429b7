//! Of which kinds a word is.

ghost use Rattle.std.specs.Prelude.{◌≡◌};
ghost use Rattle.std.specs.Char.{is_ascii_digit};
ghost use Rattle.std.specs.List.{list_all, position};
ghost use Rattle.v_design.specs.Lexemes.{among, is_name_start, is_name_byte, is_name, reserved_words};
ghost use Rattle.vcd_syntax.specs.Words as words;

use crate::kind::Kind;
use crate::numbers::decimal;

fn are_digits(bytes: &[u8]) -> bool
    ensures { result ≡ list_all is_ascii_digit bytes.now }
{
    for byte in bytes {
        if !byte.is_ascii_digit() {
            return false;
        }
    }
    true
}

fn is_number(word: &[u8]) -> bool
    ensures { result ≡ words.is_number word.now }
{
    !word.is_empty() && are_digits(word)
}

fn is_width(word: &[u8]) -> bool
    ensures { result ≡ words.is_width word.now }
{
    if !is_number(word) {
        return false;
    }
    match decimal(word) {
        Some(width) => 1 <= width && width <= 128,
        None => false,
    }
}

fn are_code_bytes(bytes: &[u8]) -> bool
    ensures { result ≡ list_all words.is_code_byte bytes.now }
{
    for byte in bytes {
        if *byte < 33 || 126 < *byte {
            return false;
        }
    }
    true
}

pub(crate) fn is_code(word: &[u8]) -> bool
    ensures { result ≡ words.is_code word.now }
{
    !word.is_empty() && are_code_bytes(word)
}

fn is_name_start(b: u8) -> bool
    ensures { result ≡ is_name_start b }
{
    b.is_ascii_alphabetic() || b == b'_'
}

fn is_name_byte(b: u8) -> bool
    ensures { result ≡ is_name_byte b }
{
    is_name_start(b) || b.is_ascii_digit() || b == b'$'
}

fn are_name_bytes(bytes: &[u8]) -> bool
    ensures { result ≡ list_all is_name_byte bytes.now }
{
    for byte in bytes {
        if !is_name_byte(*byte) {
            return false;
        }
    }
    true
}

fn is_name(word: &[u8]) -> bool
    ensures { result ≡ is_name word.now }
{
    match word {
        [] => false,
        [first, rest @ ..] => is_name_start(*first) && are_name_bytes(rest),
    }
}

// One of the words of the Verilog subset.
fn is_reserved(word: &[u8]) -> bool
    ensures { result ≡ among reserved_words word.now }
{
    b"module".as_slice() == word
        || b"input".as_slice() == word
        || b"output".as_slice() == word
        || b"wire".as_slice() == word
        || b"reg".as_slice() == word
        || b"assign".as_slice() == word
        || b"always".as_slice() == word
        || b"posedge".as_slice() == word
        || b"negedge".as_slice() == word
        || b"or".as_slice() == word
        || b"if".as_slice() == word
        || b"else".as_slice() == word
        || b"endmodule".as_slice() == word
}

fn is_identifier(word: &[u8]) -> bool
    ensures { result ≡ words.is_identifier word.now }
{
    is_name(word) && !is_reserved(word)
}

fn colon_in(text: &[u8]) -> Option<usize>
    ensures { result ≡ position words.is_colon text.now }
{
    text.iter().position(|b| *b == b':')
}

fn is_span(text: &[u8]) -> bool
    ensures { result ≡ words.is_span text.now }
{
    match colon_in(text) {
        Some(at) => is_number(&text[..at]) && is_number(&text[at + 1..]),
        None => is_number(text),
    }
}

fn is_range(word: &[u8]) -> bool
    ensures { result ≡ words.is_range word.now }
{
    match word {
        [b'[', inner @ .., b']'] => is_span(inner),
        _ => false,
    }
}

fn is_bit(b: u8) -> bool
    ensures { result ≡ words.is_bit b }
{
    b == b'0' || b == b'1' || matches!(b, b'x' | b'X' | b'z' | b'Z')
}

pub(crate) fn is_time(word: &[u8]) -> bool
    ensures { result ≡ words.is_time word.now }
{
    match word {
        [b'#', digits @ ..] => is_number(digits),
        _ => false,
    }
}

pub(crate) fn is_scalar(word: &[u8]) -> bool
    ensures { result ≡ words.is_scalar word.now }
{
    match word {
        [bit, code @ ..] => is_bit(*bit) && is_code(code),
        [] => false,
    }
}

fn all_are_bits(bytes: &[u8]) -> bool
    ensures { result ≡ list_all words.is_bit bytes.now }
{
    for byte in bytes {
        if !is_bit(*byte) {
            return false;
        }
    }
    true
}

fn are_bits(text: &[u8]) -> bool
    ensures { result ≡ words.are_bits text.now }
{
    !text.is_empty() && all_are_bits(text)
}

pub(crate) fn is_bits(word: &[u8]) -> bool
    ensures { result ≡ words.is_bits word.now }
{
    match word {
        [b'b' | b'B', bits @ ..] => are_bits(bits),
        _ => false,
    }
}

fn is_heading(word: &[u8]) -> bool
    ensures { result ≡ words.is Kind.Heading word.now }
{
    b"$date".as_slice() == word
        || b"$version".as_slice() == word
        || b"$comment".as_slice() == word
        || b"$timescale".as_slice() == word
}

fn is_scope_kind(word: &[u8]) -> bool
    ensures { result ≡ words.is Kind.ScopeKind word.now }
{
    b"module".as_slice() == word
        || b"begin".as_slice() == word
        || b"task".as_slice() == word
        || b"function".as_slice() == word
        || b"fork".as_slice() == word
}

fn is_net_kind(word: &[u8]) -> bool
    ensures { result ≡ words.is Kind.NetKind word.now }
{
    b"wire".as_slice() == word || b"reg".as_slice() == word
}

/// The word is of the kind. It takes no memory.
pub(crate) fn is(kind: Kind, word: &[u8]) -> bool
    ensures { result ≡ words.is kind word.now }
{
    match kind {
        Kind::Heading => is_heading(word),
        Kind::Said => b"$end".as_slice() != word,
        Kind::End => b"$end".as_slice() == word,
        Kind::Scope => b"$scope".as_slice() == word,
        Kind::ScopeKind => is_scope_kind(word),
        Kind::ScopeName | Kind::Name => is_identifier(word),
        Kind::Upscope => b"$upscope".as_slice() == word,
        Kind::Var => b"$var".as_slice() == word,
        Kind::NetKind => is_net_kind(word),
        Kind::Width => is_width(word),
        Kind::Code | Kind::Taker => is_code(word),
        Kind::Range => is_range(word),
        Kind::EndDefinitions => b"$enddefinitions".as_slice() == word,
        Kind::Time => is_time(word),
        Kind::Scalar => is_scalar(word),
        Kind::Bits => is_bits(word),
        Kind::DumpVars => b"$dumpvars".as_slice() == word,
        Kind::Comment => b"$comment".as_slice() == word,
    }
}
