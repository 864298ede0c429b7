//! Numbers and constants (IEEE 1364-2005, clause 3.5).

ghost use Rattle.std.specs.Prelude.{◌≡◌, ◌≤◌, ◌<◌, ◌^◌, true, IsTrue, length, IfSome, SomeIff};
ghost use Rattle.std.specs.Char.{is_ascii_digit, digit_value};
ghost use Rattle.std.specs.List.{take_while, position};
ghost use Rattle.std.specs.Option.{option_map};
ghost use Rattle.std.specs.Str.Parse.{digits_value};
ghost use Rattle.v_design.specs.Lexemes.{is_quote, base_of, constant_of};
ghost use Rattle.v_syntax.specs.Tokens.{numbers_of, constant_in as constant_meant};
ghost use Rattle.v_lexer.specs.Reading.{begins, is_digit_of, IsDecimalLen, IsSuffixLen, as_constant};

use rb_base::ones;

fn digits_len(text: &[u8]) -> usize
    ensures { result ≡ length (take_while is_ascii_digit text.now) }
{
    text.iter().take_while(|b| b.is_ascii_digit()).count()
}

// How many bytes the decimal number at the front has.
pub(crate) fn decimal_len(text: &[u8]) -> usize
    requires { IsTrue (begins is_ascii_digit text.now) }
    ensures { IsDecimalLen text.now result }
{
    if text[0] == b'0' { 1 } else { digits_len(text) }
}

// The base that a letter names.
fn base_of(letter: u8) -> Option<u32>
    ensures value { result ≡ base_of letter }
    ensures within { IfSome result (λ base. (2 ≤ base) × (base ≤ 16)) }
{
    match letter {
        b'h' => Some(16),
        b'd' => Some(10),
        b'b' => Some(2),
        _ => None,
    }
}

fn is_digit_of(base: u32, b: u8) -> bool
    requires low { 2 ≤ base }
    requires high { base ≤ 16 }
    ensures { result ≡ is_digit_of base b }
{
    char::from(b).is_digit(base)
}

fn numeral_len(text: &[u8], base: u32) -> usize
    requires low { 2 ≤ base }
    requires high { base ≤ 16 }
    ensures { result ≡ length (take_while (is_digit_of base) text.now) }
{
    text.iter().take_while(|b| is_digit_of(base, **b)).count()
}

// How many bytes of a ', the letter of a base and its digits stand at the front, 0 where they do not.
pub(crate) fn suffix_len(text: &[u8]) -> usize
    ensures { IsSuffixLen text.now result }
{
    match text {
        [b'\'', letter, digits @ ..] => match base_of(*letter) {
            Some(base) => match numeral_len(digits, base) {
                0 => 0,
                len => len + 2,
            },
            None => 0,
        },
        _ => 0,
    }
}

/// The value of a digit in any base, 36 where the byte is none.
pub fn digit_of(b: u8) -> u8
    ensures { result ≡ digit_value b }
{
    match char::from(b).to_digit(36) {
        Some(digit) => digit as u8,
        None => 36,
    }
}

// The value of digits, None where it needs more than 128 bits.
fn value_of(digits: &[u8], base: u32) -> Option<u128>
    requires low { 2 ≤ base }
    requires high { base ≤ 16 }
    ensures { SomeIff result (digits_value base digits.now < 2 ^ 128) (digits_value base digits.now) }
{
    let mut value: u128 = 0;
    for b in digits {
        value = value
            .checked_mul(u128::from(base))?
            .checked_add(u128::from(digit_of(*b)))?;
    }
    Some(value)
}

// The width and the value of a constant, None where either is out of range.
pub(crate) fn constant(size: &[u8], based: &[u8]) -> Option<(u8, u128)>
    ensures { option_map as_constant result ≡ constant_of (digits_value 10 size.now) based.now }
{
    let width = value_of(size, 10)?;
    if width == 0 || width > 128 {
        return None;
    }
    let width = width as u8;
    match based {
        [letter, digits @ ..] => {
            let base = base_of(*letter)?;
            let value = value_of(digits, base)?;
            if value > ones(width) {
                return None;
            }
            Some((width, value))
        }
        [] => None,
    }
}

fn quote_in(word: &[u8]) -> Option<usize>
    ensures { result ≡ position is_quote word.now }
{
    word.iter().position(|b| *b == b'\'')
}

/// The width and the value of a constant that was read, 0 and 0 where its bytes are none. Takes no memory.
pub fn constant_in(word: &[u8]) -> (u8, u128)
    ensures { result ≡ numbers_of (constant_meant word.now) }
{
    match quote_in(word) {
        Some(at) => constant(&word[..at], &word[at + 1..]).unwrap_or((0, 0)),
        None => (0, 0),
    }
}
