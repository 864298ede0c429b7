//! The numbers that digits write.

ghost use Rattle.std.specs.Prelude.{◌≡◌, ℕ, ◌+◌, ◌*◌};
ghost use Rattle.std.specs.Char.{digit_value};
ghost use Rattle.std.specs.Str.Parse.{digits_value};
ghost use Rattle.vcd_syntax.specs.Words.{decimal_value};
ghost use Rattle.vcd_syntax.specs.Numbers.{within};

/// A binary number to which one more digit can be added within 64 bits, if it isn't above this: 2^63 - 36.
const MOST_BEFORE_A_BIT: u64 = 9_223_372_036_854_775_772;

// The value of a digit, as `digit_value` says.
fn digit_of(b: u8) -> u8
    ensures { result ≡ digit_value b }
{
    if b.is_ascii_digit() {
        return b - b'0';
    }
    match char::from(b).to_digit(36) {
        Some(digit) => digit as u8,
        None => 36,
    }
}

// A decimal number with one more digit.
fn with_digit(number: Option<u64>, digit: u8) -> Option<u64>
    ensures { (n : ℕ) → number ≡ within 64 n → result ≡ within 64 (n * 10 + digit) }
{
    number?.checked_mul(10)?.checked_add(u64::from(digit))
}

// A binary number with one more digit.
fn with_bit(number: Option<u128>, digit: u8) -> Option<u128>
    ensures { (n : ℕ) → number ≡ within 128 n → result ≡ within 128 (n * 2 + digit) }
{
    let number = number?;
    number.checked_add(number)?.checked_add(u128::from(digit))
}

/// The number that decimal digits write, where it is below 2^64. It takes no memory.
pub fn decimal(digits: &[u8]) -> Option<u64>
    ensures { result ≡ within 64 (decimal_value digits.now) }
{
    let mut number = Some(0);
    for b in digits {
        number = with_digit(number, digit_of(*b));
    }
    number
}

// The number that binary digits write, however many they are.
fn long_binary(digits: &[u8]) -> Option<u128>
    ensures { result ≡ within 128 (digits_value 2 digits.now) }
{
    let mut number = Some(0);
    for b in digits {
        number = with_bit(number, digit_of(*b));
    }
    number
}

/// The number that binary digits write, where it is below 2^128. It takes no memory.
pub fn binary(digits: &[u8]) -> Option<u128>
    ensures { result ≡ within 128 (digits_value 2 digits.now) }
{
    let mut number: u64 = 0;
    for b in digits {
        if MOST_BEFORE_A_BIT < number {
            return long_binary(digits);
        }
        number = number * 2 + u64::from(digit_of(*b));
    }
    Some(u128::from(number))
}
