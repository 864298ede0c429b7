//! Lines of cells.

ghost use Rattle.std.specs.Prelude.{◌≡◌, ◌≤◌, ◌<◌, ◌*◌, ◌/◌, ◌^◌, ◌++◌, ◌∷◌, false, OnOk, map};
ghost use Rattle.std.specs.Fmt.{digits, digit_glyph};
ghost use Rattle.report_text.specs.Printed.{line, cell};

use rb_base::{NoMemory, Pin, hex_digits};

/// Adds the names of pins as a line, with commas between.
pub fn push_names(text: &mut Vec<u8>, pins: &[Pin]) -> Result<(), NoMemory>
    ensures { OnOk result (text.new.items ≡ text.old.items ++ line (map (λ p. p.name) pins.now)) }
{
    for (index, pin) in pins.iter().enumerate() {
        if index > 0 {
            text.push(b',')?;
        }
        text.extend_from_slice(&pin.name.bytes)?;
    }
    text.push(b'\n')?;
    Ok(())
}

/// The lower case hexadecimal digit of a number below 16.
fn hex_digit(number: u64) -> u8
    requires { number < 16 }
    ensures { result ≡ digit_glyph false number }
{
    if number < 10 {
        b'0' + number as u8
    } else {
        b'a' + (number - 10) as u8
    }
}

/// How many hexadecimal digits of a number stand behind its first.
fn digits_behind_first(number: u64) -> u32
    ensures most { result ≤ 15 }
    ensures first { number / 2 ^ (4 * result) < 16 }
    ensures counted { 1 ≤ result → 2 ^ (4 * result) ≤ number }
{
    if number < 16 {
        0
    } else {
        (63 - number.leading_zeros()) / 4
    }
}

/// Adds a number of one digit as a cell, within room that is taken once.
fn push_digit(text: &mut Vec<u8>, number: u64) -> Result<(), NoMemory>
    requires { number < 16 }
    ensures { OnOk result (text.new.items ≡ text.old.items ++ cell number) }
{
    text.reserve(3)?;
    text.push_reserved(b'0');
    text.push_reserved(b'x');
    text.push_reserved(hex_digit(number));
    Ok(())
}

/// Adds a number of two digits as a cell, within room that is taken once.
fn push_two_digits(text: &mut Vec<u8>, number: u64) -> Result<(), NoMemory>
    requires two { 16 ≤ number }
    requires no_more { number < 256 }
    ensures { OnOk result (text.new.items ≡ text.old.items ++ cell number) }
{
    text.reserve(4)?;
    text.push_reserved(b'0');
    text.push_reserved(b'x');
    text.push_reserved(hex_digit(number / 16));
    text.push_reserved(hex_digit(number % 16));
    Ok(())
}

/// Adds a number below 2^64 as a cell, from the first digit to the last, within room that is taken once.
fn push_narrow(text: &mut Vec<u8>, number: u64) -> Result<(), NoMemory>
    ensures { OnOk result (text.new.items ≡ text.old.items ++ cell number) }
{
    text.reserve(18)?;
    text.push_reserved(b'0');
    text.push_reserved(b'x');
    let mut behind = digits_behind_first(number);
    text.push_reserved(hex_digit(number >> (4 * behind)));
    while behind > 0 {
        behind -= 1;
        text.push_reserved(hex_digit((number >> (4 * behind)) % 16));
    }
    Ok(())
}

/// Adds a number of any width as a cell.
fn push_wide(text: &mut Vec<u8>, number: u128) -> Result<(), NoMemory>
    ensures { OnOk result (text.new.items ≡ text.old.items ++ cell number) }
{
    let mut bytes = [0; 32];
    let first = hex_digits(number, &mut bytes);
    text.extend_from_slice(b"0x")?;
    text.extend_from_slice(&bytes[first..])?;
    Ok(())
}

/// Adds a number in hexadecimal digits, behind `0x`. The only error is want of memory.
pub fn push_number(text: &mut Vec<u8>, number: u128) -> Result<(), NoMemory>
    ensures { OnOk result (text.new.items ≡ text.old.items ++ cell number) }
{
    if number < 16 {
        push_digit(text, number as u64)
    } else if number < 256 {
        push_two_digits(text, number as u64)
    } else if number <= u128::from(u64::MAX) {
        push_narrow(text, number as u64)
    } else {
        push_wide(text, number)
    }
}

/// Adds a number of one digit as a cell behind a comma, all at once.
fn push_next_digit(text: &mut Vec<u8>, number: u64) -> Result<(), NoMemory>
    requires { number < 16 }
    ensures { OnOk result (text.new.items ≡ text.old.items ++ 44 ∷ cell number) }
{
    text.extend_from_slice(&[b',', b'0', b'x', hex_digit(number)])?;
    Ok(())
}

/// Adds a number of two digits as a cell behind a comma, all at once.
fn push_next_two_digits(text: &mut Vec<u8>, number: u64) -> Result<(), NoMemory>
    requires two { 16 ≤ number }
    requires no_more { number < 256 }
    ensures { OnOk result (text.new.items ≡ text.old.items ++ 44 ∷ cell number) }
{
    let first = hex_digit(number / 16);
    let second = hex_digit(number % 16);
    text.extend_from_slice(&[b',', b'0', b'x', first, second])?;
    Ok(())
}

/// Adds a number as a cell behind a comma.
pub(crate) fn push_next(text: &mut Vec<u8>, number: u128) -> Result<(), NoMemory>
    ensures { OnOk result (text.new.items ≡ text.old.items ++ 44 ∷ cell number) }
{
    if number < 16 {
        return push_next_digit(text, number as u64);
    }
    if number < 256 {
        return push_next_two_digits(text, number as u64);
    }
    text.push(b',')?;
    push_number(text, number)
}

/// Adds numbers in hexadecimal digits as a line, with commas between.
pub fn push_numbers(text: &mut Vec<u8>, numbers: &[u128]) -> Result<(), NoMemory>
    ensures { OnOk result (text.new.items ≡ text.old.items ++ line (map cell numbers.now)) }
{
    for (index, number) in numbers.iter().enumerate() {
        if index > 0 {
            push_next(text, *number)?;
        } else {
            push_number(text, *number)?;
        }
    }
    text.push(b'\n')?;
    Ok(())
}
