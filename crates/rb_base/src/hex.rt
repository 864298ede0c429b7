//! Hexadecimal digits.

ghost use Rattle.std.specs.Prelude.{◌≡◌, ◌≤◌, ◌<◌, drop, false};
ghost use Rattle.std.specs.Fmt.{digits, digit_glyph};

/// The lower case hexadecimal digit of a number below 16.
fn hex_digit(number: u8) -> u8
    requires { number < 16 }
    ensures { result ≡ digit_glyph false number }
{
    if number < 10 {
        b'0' + number
    } else {
        b'a' + (number - 10)
    }
}

/// Puts the lower case hexadecimal digits of a number, without leading zeros, at the end of the bytes, and gives the place
/// of the first. It takes no memory.
pub fn hex_digits(number: u128, bytes: &mut [u8; 32]) -> usize
    ensures within { result ≤ 32 }
    ensures digits { drop result bytes.new ≡ digits 16 false number }
{
    let mut left = number;
    let mut at = 32;
    while left >= 16 {
        at -= 1;
        bytes[at] = hex_digit((left % 16) as u8);
        left /= 16;
    }
    at -= 1;
    bytes[at] = hex_digit(left as u8);
    at
}
