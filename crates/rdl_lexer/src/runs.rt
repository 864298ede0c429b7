//! Runs of bytes of one kind at the front of a text.

ghost use Rattle.std.specs.Prelude.{◌≡◌, length};
ghost use Rattle.std.specs.List.{take_while};
ghost use Rattle.rdl_lexer.specs.Lexemes.{is_in_word};
ghost use Rattle.rdl_lexer.specs.Numbers.{is_in_decimal, is_in_hexadecimal, is_in_base};

fn is_in_word(b: u8) -> bool
    ensures { result ≡ is_in_word b }
{
    b.is_ascii_alphabetic() || b == b'_' || b.is_ascii_digit()
}

fn is_in_decimal(b: u8) -> bool
    ensures { result ≡ is_in_decimal b }
{
    b.is_ascii_digit() || b == b'_'
}

fn is_in_hexadecimal(b: u8) -> bool
    ensures { result ≡ is_in_hexadecimal b }
{
    b.is_ascii_hexdigit() || b == b'_'
}

pub(crate) fn word_len(text: &[u8]) -> usize
    ensures { result ≡ length (take_while is_in_word text.now) }
{
    text.iter().take_while(|b| is_in_word(**b)).count()
}

pub(crate) fn decimal_len(text: &[u8]) -> usize
    ensures { result ≡ length (take_while is_in_decimal text.now) }
{
    text.iter().take_while(|b| is_in_decimal(**b)).count()
}

pub(crate) fn hexadecimal_len(text: &[u8]) -> usize
    ensures { result ≡ length (take_while is_in_hexadecimal text.now) }
{
    text.iter().take_while(|b| is_in_hexadecimal(**b)).count()
}

pub(crate) fn run_len(text: &[u8], base: u32) -> usize
    ensures { result ≡ length (take_while (is_in_base base) text.now) }
{
    if base == 16 {
        hexadecimal_len(text)
    } else {
        decimal_len(text)
    }
}
