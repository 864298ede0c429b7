//! Numbers (SystemRDL 2.0, 4.6).

ghost use Rattle.std.specs.Prelude.{◌≡◌, ◌≤◌, ◌<◌, ◌^◌, ◌==◌, Option, Some, true, false, IsTrue, ℕ, List, ◌++◌, take, length, IfSome, SomeIff, ◌*◌, ◌+◌};
ghost use Rattle.std.specs.Option.{unwrap_or};
ghost use Rattle.std.specs.Char.{is_ascii_digit};
ghost use Rattle.std.specs.Str.Parse.{digits_value};
ghost use Rattle.rb_grammar.specs.Separators.{begins_separator};
ghost use Rattle.rdl_lexer.specs.Numbers.{value_of, base_of, value_of_size, is_decimal, is_based, digits_of, begins_hexadecimal};
ghost use Rattle.rdl_lexer.specs.Reading.{begins, IsNumberAt};

use crate::runs::{decimal_len, hexadecimal_len, run_len};

// A number with one digit more, None where it is no longer below 2 to the number of bits.
fn with_digit(value: u64, digit: u32, base: u32, bits: u32) -> Option<u64>
    requires small { base ≤ 16 }
    requires bits { bits ≤ 64 }
    ensures { SomeIff result (value * base + digit < 2 ^ bits) (value * base + digit) }
{
    let value = u128::from(value) * u128::from(base) + u128::from(digit);
    if value >> bits == 0 {
        Some(value as u64)
    } else {
        None
    }
}

// The value of a run of digits and `_`: a number of so many bits in the base.
pub(crate) fn value_of(run: &[u8], base: u32, bits: u32) -> Option<u64>
    requires bits { bits ≤ 64 }
    requires low { 2 ≤ base }
    requires high { base ≤ 16 }
    ensures { result ≡ value_of bits base run.now }
{
    let mut value = None;
    for b in run {
        if *b != b'_' {
            let digit = char::from(*b).to_digit(base)?;
            value = Some(with_digit(value.unwrap_or(0), digit, base, bits)?);
        }
    }
    value
}

// The base that a letter names.
pub(crate) fn base_of(letter: u8) -> Option<u32>
    ensures value { result ≡ base_of letter }
    ensures within { IfSome result (λ base. (2 ≤ base) × (base ≤ 16)) }
{
    match letter {
        b'b' | b'B' => Some(2),
        b'o' | b'O' => Some(8),
        b'd' | b'D' => Some(10),
        b'h' | b'H' => Some(16),
        _ => None,
    }
}

// How many bytes of a base and digits stand behind a size, 0 where no base does.
fn based_len(text: &[u8]) -> usize
    ensures within { result ≤ length text.now }
    ensures based { IsTrue (is_based (take result text.now)) }
    ensures longest { (other after : List ℕ) → text.now ≡ other ++ after → IsTrue (is_based other) → length other ≤ result }
{
    match text {
        [letter, run @ ..] => match base_of(*letter) {
            Some(base) => 1 + run_len(run, base),
            None => 0,
        },
        [] => 0,
    }
}

// The value of a size and of the base and digits behind it.
fn sized_value(size: &[u8], based: &[u8]) -> Option<u64>
    requires { IsTrue (is_decimal size.now) }
    ensures { result ≡ value_of_size (digits_value 10 (digits_of size.now)) based.now }
{
    let bits = value_of(size, 10, 7)?;
    if bits == 0 || bits > 64 {
        return None;
    }
    match based {
        [letter, run @ ..] => {
            let base = base_of(*letter)?;
            value_of(run, base, bits as u32)
        }
        [] => None,
    }
}

fn begins_hexadecimal(text: &[u8]) -> bool
    ensures { result ≡ begins_hexadecimal text.now }
{
    matches!(text, [b'0', b'x' | b'X', ..])
}

// How many bytes the number at the front has, and its value, if it has one.
pub(crate) fn number_at(text: &[u8]) -> (usize, Option<u64>)
    requires bare { begins_separator true text.now ≡ false }
    requires digit { IsTrue (begins is_ascii_digit text.now) }
    ensures { IsNumberAt text.now result.0 result.1 }
{
    if begins_hexadecimal(text) {
        let len = hexadecimal_len(&text[2..]);
        return (len + 2, value_of(&text[2..len + 2], 16, 64));
    }
    let size = decimal_len(text);
    if size == text.len() || text[size] != b'\'' {
        return (size, value_of(&text[..size], 10, 64));
    }
    let based = &text[size + 1..];
    let len = based_len(based);
    (size + 1 + len, sized_value(&text[..size], &based[..len]))
}
