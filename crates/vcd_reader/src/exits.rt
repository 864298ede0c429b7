//! Which way the words of changes lead, as most words of a dump are, told without a call.

ghost use Rattle.std.specs.Prelude.{◌≡◌, true, Some, drop};
ghost use Rattle.std.specs.List.{list_all};
ghost use Rattle.vcd_syntax.specs.Words.{is_code};
ghost use Rattle.vcd_syntax.specs.Exits.{exit_by};
ghost use Rattle.vcd_syntax.specs.Faulty.{is_known_bit};

use vcd_syntax::{Kind, State};

fn begins_with_bit(word: &[u8]) -> bool
    ensures { result ≡ true → is_code (drop 1 word.now) ≡ true → exit_by State.Entries word.now ≡ Some (Kind.Scalar, State.Entries) }
{
    match word {
        [bit, ..] => *bit == b'0' || *bit == b'1',
        [] => false,
    }
}

/// Whether a word is a bit, 0 or 1, and the code of a variable, behind the definitions, if the rest of it is a code.
pub(crate) fn is_change(state: State, word: &[u8]) -> bool
    ensures { result ≡ true → is_code (drop 1 word.now) ≡ true → exit_by state word.now ≡ Some (Kind.Scalar, State.Entries) }
{
    match state {
        State::Entries => begins_with_bit(word),
        _ => false,
    }
}

pub(crate) fn are_known(bits: &[u8]) -> bool
    ensures { result ≡ list_all is_known_bit bits.now }
{
    for bit in bits {
        if *bit != b'0' && *bit != b'1' {
            return false;
        }
    }
    true
}

// Whether a word is `b` and bits, all of them 0 or 1.
fn is_binary(word: &[u8]) -> bool
    ensures is { result ≡ true → exit_by State.Entries word.now ≡ Some (Kind.Bits, State.Taker) }
    ensures known { result ≡ true → list_all is_known_bit (drop 1 word.now) ≡ true }
{
    match word {
        [b'b', bits @ ..] => !bits.is_empty() && are_known(bits),
        _ => false,
    }
}

/// Whether a word is `b` and bits for a variable, all of them 0 or 1, behind the definitions.
pub(crate) fn is_number(state: State, word: &[u8]) -> bool
    ensures leads { result ≡ true → exit_by state word.now ≡ Some (Kind.Bits, State.Taker) }
    ensures known { result ≡ true → list_all is_known_bit (drop 1 word.now) ≡ true }
{
    match state {
        State::Entries => is_binary(word),
        _ => false,
    }
}
