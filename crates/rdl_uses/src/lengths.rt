//! How long the text of a path is.

ghost use Rattle.std.specs.Prelude.{◌≡◌, ◌+◌, ◌<◌, ◌≤◌, length, MatchOption, decimal, [], ◌∷◌};
ghost use Rattle.rdl_values.specs.Paths.{joined};

/// The most bytes that the text of a path has (rule E11).
pub const MOST_BYTES: usize = 900;

// How many digits a number has.
fn decimal_len(number: u64) -> usize
    ensures exact { result ≡ length (decimal number) }
    ensures short { result ≤ 20 }
{
    let mut left = number;
    let mut len = 1;
    while left >= 10 {
        left /= 10;
        len += 1;
    }
    len
}

/// How many bytes the text of a path has with one more step behind so many bytes, or None where it is longer than 900.
pub fn text_len(prefix: u16, name: &[u8], index: &[u64]) -> Option<usize>
    ensures { let len = prefix + length (joined (record { name = name.now; index = index.now } ∷ []))
        in MatchOption result (MOST_BYTES < len) (λ n. (n ≡ len) × (n ≤ MOST_BYTES)) }
{
    let mut len = usize::from(prefix) + name.len();
    for number in index {
        if len > MOST_BYTES {
            return None;
        }
        len += 1 + decimal_len(*number);
    }
    if len > MOST_BYTES { None } else { Some(len) }
}
