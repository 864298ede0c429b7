//! The forms of words: names of files and of tops, and a number of registers.

ghost use Rattle.std.specs.Prelude.{◌≡◌};
ghost use Rattle.std.specs.List.{list_all};
ghost use Rattle.std.specs.String.{string_bytes};
ghost use Rattle.rdl_tree.specs.Words as rdl;
ghost use Rattle.command_line.specs.Words.{texts};
ghost use Rattle.command_line.specs.Found as found;

use itoa::Buffer;

pub(crate) fn is_file(word: &str) -> bool
    ensures { result ≡ found.is_file word.now }
{
    match word.as_bytes() {
        [] => false,
        [first, ..] => *first != b'-',
    }
}

fn is_in_word(byte: u8) -> bool
    ensures { result ≡ rdl.is_in_word byte }
{
    byte.is_ascii_alphanumeric() || byte == b'_'
}

fn are_in_word(bytes: &[u8]) -> bool
    ensures { result ≡ list_all rdl.is_in_word bytes.now }
{
    for byte in bytes {
        if !is_in_word(*byte) {
            return false;
        }
    }
    true
}

pub(crate) fn is_word(word: &str) -> bool
    ensures { result ≡ rdl.is_word word.now }
{
    match word.as_bytes() {
        [] => false,
        [first, rest @ ..] => (first.is_ascii_alphabetic() || *first == b'_') && are_in_word(rest),
    }
}

fn name_files(words: &[String]) -> bool
    ensures { result ≡ list_all (λ word. found.is_file (string_bytes word)) words.now }
{
    for word in words {
        if !is_file(word.as_str()) {
            return false;
        }
    }
    true
}

pub(crate) fn are_files(words: &[String]) -> bool
    ensures { result ≡ found.are_files (texts words.now) }
{
    if words.is_empty() || words.len() > 64 {
        return false;
    }
    name_files(words)
}

// The word is the decimal of the number, which is 1 to 8,192.
fn gives(word: &str, count: u32) -> bool
    ensures { result ≡ found.gives word.now count }
{
    if count == 0 || count > 8192 {
        return false;
    }
    let mut digits = Buffer::new();
    digits.format(count) == word
}

/// The number of registers that a word gives: 1 to 8,192, in decimal, without leading zeros.
pub(crate) fn count_of(word: &str) -> Option<u32>
    ensures { result ≡ found.count_in word.now }
{
    let Ok(count) = word.parse::<u32>() else {
        return None;
    };
    if gives(word, count) {
        Some(count)
    } else {
        None
    }
}
