//! The lines of a text.

ghost use Rattle.std.specs.Prelude.{◌≡◌, ◌<◌, ◌∷◌, ◌==◌, IfSome, length, option_copied, position};
ghost use Rattle.std.specs.Str.Lines.{strip_carriage_return};
ghost use Rattle.drive_lang.specs.Lines.{bare, lines_behind, lines_of, uncommented};

/// The place of the first such byte.
fn place_of(text: &[u8], wanted: u8) -> Option<usize>
    ensures { result ≡ position (λ b. b == wanted) text.now }
{
    text.iter().position(|byte| *byte == wanted)
}

/// A line without the carriage return at its end, if it has one.
fn without_return(line: &[u8]) -> &[u8]
    ensures { result.now ≡ strip_carriage_return line.now }
{
    match line {
        [front @ .., b'\r'] => front,
        _ => line,
    }
}

/// A line without its comment.
fn without_comment(line: &[u8]) -> &[u8]
    ensures { result.now ≡ uncommented line.now }
{
    match place_of(line, b'#') {
        Some(start) => &line[..start],
        None => line,
    }
}

/// The first line of a text, without a carriage return at its end and without its comment, and the text behind it, where a line
/// feed ends it. It takes no memory.
pub(crate) fn first_line(text: &[u8]) -> (&[u8], Option<&[u8]>)
    ensures line { lines_of text.now ≡ result.0.now ∷ lines_behind (option_copied result.1) }
    ensures shorter { IfSome result.1 (λ rest. length rest.now < length text.now) }
{
    match place_of(text, b'\n') {
        Some(end) => (
            without_comment(without_return(&text[..end])),
            Some(&text[end + 1..]),
        ),
        None => (without_comment(without_return(text)), None),
    }
}
