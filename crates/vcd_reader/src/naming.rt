//! The names of variables.

ghost use Rattle.std.specs.Prelude.{◌≡◌, ◌-◌, ◌^◌, ◌<◌, length, List, slice_get, option_copied};
ghost use Rattle.vcd_syntax.specs.Tokens.{Token};
ghost use Rattle.vcd_syntax.specs.Meaning.{names};
ghost use Rattle.vcd_syntax.specs.Reading.{IsSound};

use crate::words::word_behind;
use vcd_syntax::{Kind, State, exit_of};

/// The name of the variable of a number, counted from 0, in a text of fewer than 2^32 - 1 bytes that is a dump without a
/// problem but for values that are lacking; None where it has no such variable. It takes no memory, and time in proportion to
/// the text.
pub fn variable_name(bytes: &[u8], number: u32) -> Option<&[u8]>
    requires { length bytes.now < 2 ^ 32 - 1 }
    ensures { (ms : List Token) → IsSound bytes.now ms → option_copied result ≡ slice_get (names ms) number }
{
    let mut state = State::Front;
    let mut left = number;
    let mut at = 0;
    'words: while let Some(word) = word_behind(bytes, at) {
        let (kind, to) = exit_of(state, word.text)?;
        if let Kind::Name = kind {
            if left == 0 {
                return Some(word.text);
            }
            left -= 1;
        }
        state = to;
        at = word.place.0 as usize + word.text.len();
    }
    None
}
