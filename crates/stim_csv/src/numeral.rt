//! The numbers of cells.
ghost use Rattle.std.specs.Prelude.{◌≡◌, ℕ, ◌+◌, ◌*◌, ◌^◌, ◌<◌, ◌≤◌, nat_lt, if◌then◌else◌, Some, None, Option, IfSome};
ghost use Rattle.stim_csv.specs.Numeral.{numeral_value, cell_of, capped, fits};
ghost use Rattle.stim_csv.specs.Plain.{Leads};

/// The greatest number to which one more digit of any radix can be added within 64 bits: 2^64 - 36, shared by 36.
const MOST_BEFORE_A_DIGIT: u64 = 512_409_557_603_043_099;

/// What a text is as a cell of a table.
#[derive(Clone, Copy, Debug, PartialEq, Eq)]
pub enum Cell {
    /// No number.
    Bad,
    /// A number below 2^128.
    Number(u128),
    /// A number of 2^128 or more.
    Above,
}

/// The number with one more digit at its end, where it is below 2^128.
fn appended(number: Option<u128>, radix: u32, digit: u32) -> Option<u128>
    requires { 1 ≤ radix }
    ensures { (n : ℕ) → number ≡ capped n → result ≡ capped (n * radix + digit) }
{
    number?
        .checked_mul(u128::from(radix))?
        .checked_add(u128::from(digit))
}

/// The number that digits of a radix, 2 to 36, write, however many they are.
fn long_numeral(digits: &[u8], radix: u32) -> Cell
    requires low { 2 ≤ radix }
    requires high { radix ≤ 36 }
    ensures { result ≡ cell_of (numeral_value radix digits.now) }
{
    let mut number = Some(0);
    for byte in digits {
        match char::from(*byte).to_digit(radix) {
            Some(digit) => number = appended(number, radix, digit),
            None => return Cell::Bad,
        }
    }
    if digits.is_empty() {
        return Cell::Bad;
    }
    match number {
        Some(number) => Cell::Number(number),
        None => Cell::Above,
    }
}

/// The number that digits of a radix, 2 to 36, write.
pub(crate) fn numeral(digits: &[u8], radix: u32) -> Cell
    requires low { 2 ≤ radix }
    requires high { radix ≤ 36 }
    ensures { result ≡ cell_of (numeral_value radix digits.now) }
{
    let mut number = 0;
    for byte in digits {
        if MOST_BEFORE_A_DIGIT < number {
            return long_numeral(digits, radix);
        }
        match char::from(*byte).to_digit(radix) {
            Some(digit) => number = number * u64::from(radix) + u64::from(digit),
            None => return Cell::Bad,
        }
    }
    if digits.is_empty() {
        return Cell::Bad;
    }
    Cell::Number(u128::from(number))
}

/// Whether a number fits so many bits. It takes no memory.
pub fn is_within(number: u128, width: u8) -> bool
    ensures { result ≡ fits width number }
{
    width >= 128 || number >> width == 0
}

/// The number that digits at the beginning of a text write, and how many they are, where another byte stands behind them.
/// There is none where a number past `most`, to which one more digit can be added within 64 bits, would get one.
pub(crate) fn leading_numeral(text: &[u8], radix: u32, most: u64) -> Option<(u64, usize)>
    requires low { 2 ≤ radix }
    requires high { radix ≤ 16 }
    requires room { most * radix + radix ≤ 2 ^ 64 }
    ensures { IfSome result (λ r. Leads radix text.now r.0 r.1) }
{
    let mut number = 0;
    for (count, byte) in text.iter().enumerate() {
        let Some(digit) = char::from(*byte).to_digit(radix) else {
            return if count == 0 {
                None
            } else {
                Some((number, count))
            };
        };
        if most < number {
            return None;
        }
        number = number * u64::from(radix) + u64::from(digit);
    }
    None
}

/// Whether a number below 2^64 fits so many bits.
pub(crate) fn is_narrow_within(number: u64, width: u8) -> bool
    ensures { result ≡ fits width number }
{
    width >= 64 || number >> width == 0
}
