//! Cells of tables, which are VALUEs of scripts too.
ghost use Rattle.std.specs.Prelude.{◌≡◌, ◌≤◌, ◌<◌, ◌+◌, ℕ, drop, length, IfSome};
ghost use Rattle.stim_csv.specs.Numeral.{cell_value, cell_of};
ghost use Rattle.stim_csv.specs.Plain.{IsCellAhead, IsCellBefore};

use crate::numeral::{Cell, is_narrow_within, leading_numeral, numeral};

/// The greatest number to which a decimal digit can be added within 64 bits, whichever it is.
const MOST_BEFORE_DECIMAL: u64 = 1_844_674_407_370_955_160;

/// The greatest number to which a hexadecimal digit can be added within 64 bits.
const MOST_BEFORE_HEXADECIMAL: u64 = 1_152_921_504_606_846_975;

/// What a text is as a cell: decimal digits, or `0x` and hexadecimal digits of either case, with leading zeros or without.
/// It takes no memory, and time in proportion to the text.
pub fn cell(text: &[u8]) -> Cell
    ensures { result ≡ cell_of (cell_value text.now) }
{
    if text.starts_with(b"0x") {
        numeral(&text[2..], 16)
    } else {
        numeral(text, 10)
    }
}

/// The number of the cell at the beginning of a text, and how many bytes it has, where another byte stands behind it. There
/// is none for a number that may be 2^64 or more.
fn cell_ahead(text: &[u8]) -> Option<(u64, usize)>
    ensures { IfSome result (λ r. IsCellAhead text.now r.0 r.1) }
{
    if text.starts_with(b"0x") {
        let (number, count) = leading_numeral(&text[2..], 16, MOST_BEFORE_HEXADECIMAL)?;
        Some((number, count + 2))
    } else {
        leading_numeral(text, 10, MOST_BEFORE_DECIMAL)
    }
}

/// The number of the cell at a place of a text, where it is one hexadecimal digit behind `0x`, this byte follows, and the
/// number fits so many bits.
#[inline(always)]
fn one_digit(text: &[u8], at: usize, separator: u8, width: u8) -> Option<u64>
    requires { at ≤ length text.now }
    ensures within { IfSome result (λ n. at + 4 ≤ length text.now) }
    ensures cell { IfSome result (λ n. IsCellBefore separator width (drop at text.now) (drop (at + 4) text.now) n) }
{
    if text.len() - at < 4 {
        return None;
    }
    if text[at] != b'0' || text[at + 1] != b'x' || text[at + 3] != separator {
        return None;
    }
    let digit = char::from(text[at + 2]).to_digit(16)?;
    let number = u64::from(digit);
    if is_narrow_within(number, width) {
        Some(number)
    } else {
        None
    }
}

/// As `cell_before`, whatever the cell.
#[cold]
fn long_cell_before(text: &[u8], at: usize, separator: u8, width: u8) -> Option<(u64, usize)>
    requires { at ≤ length text.now }
    ensures within { IfSome result (λ r. r.1 ≤ length text.now) }
    ensures past { IfSome result (λ r. at < r.1) }
    ensures cell { IfSome result (λ r. IsCellBefore separator width (drop at text.now) (drop r.1 text.now) r.0) }
{
    let (number, count) = cell_ahead(&text[at..])?;
    if text[at + count] == separator && is_narrow_within(number, width) {
        Some((number, at + count + 1))
    } else {
        None
    }
}

/// The number of the cell at a place of a text, and the place past it and the byte behind it, where that is the separator and
/// the number fits so many bits. A cell of one digit is read at once.
#[inline(always)]
pub(crate) fn cell_before(text: &[u8], at: usize, separator: u8, width: u8) -> Option<(u64, usize)>
    requires { at ≤ length text.now }
    ensures within { IfSome result (λ r. r.1 ≤ length text.now) }
    ensures past { IfSome result (λ r. at < r.1) }
    ensures cell { IfSome result (λ r. IsCellBefore separator width (drop at text.now) (drop r.1 text.now) r.0) }
{
    match one_digit(text, at, separator, width) {
        Some(number) => Some((number, at + 4)),
        None => long_cell_before(text, at, separator, width),
    }
}
