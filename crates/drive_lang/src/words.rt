//! The words of a line.

ghost use Rattle.std.specs.Prelude.{◌≡◌, ◌∷◌, [], MatchOption, not, position};
ghost use Rattle.drive_lang.specs.Lines.{is_blank as blank, words_of};
ghost use Rattle.drive_lang.specs.Words.{AreWords};

/// The words of a line: all of them where there are none, two or three, as each line of a script has.
#[derive(Clone, Copy, Debug, PartialEq, Eq)]
pub(crate) enum Words<'s> {
    /// There is no word.
    Nothing,
    Two(&'s [u8], &'s [u8]),
    Three(&'s [u8], &'s [u8], &'s [u8]),
    /// There is one word, or there are more than three.
    Other,
}

fn is_blank(byte: u8) -> bool
    ensures { result ≡ blank byte }
{
    byte == b'\t' || byte == b' '
}

/// The place of the first byte of a word.
fn start_of_word(line: &[u8]) -> Option<usize>
    ensures { result ≡ position (λ b. not (blank b)) line.now }
{
    line.iter().position(|byte| !is_blank(*byte))
}

/// The place of the first byte behind a word.
fn end_of_word(line: &[u8]) -> Option<usize>
    ensures { result ≡ position blank line.now }
{
    line.iter().position(|byte| is_blank(*byte))
}

/// The first word of a line, and what stands behind it.
fn first_word(line: &[u8]) -> Option<(&[u8], &[u8])>
    ensures { MatchOption result (words_of line.now ≡ []) (λ r. words_of line.now ≡ r.0.now ∷ words_of r.1.now) }
{
    let Some(start) = start_of_word(line) else {
        return None;
    };
    let rest = &line[start..];
    match end_of_word(rest) {
        Some(end) => Some((&rest[..end], &rest[end..])),
        None => Some((rest, &[])),
    }
}

/// The words of a line. It takes no memory.
pub(crate) fn words_in(line: &[u8]) -> Words<'_>
    ensures { AreWords result (words_of line.now) }
{
    let Some((first, rest)) = first_word(line) else {
        return Words::Nothing;
    };
    let Some((second, rest)) = first_word(rest) else {
        return Words::Other;
    };
    let Some((third, rest)) = first_word(rest) else {
        return Words::Two(first, second);
    };
    match first_word(rest) {
        None => Words::Three(first, second, third),
        Some(_) => Words::Other,
    }
}
