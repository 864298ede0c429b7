//! Marks.

ghost use Rattle.std.specs.Prelude.{◌≡◌};
ghost use Rattle.v_lexer.specs.Reading.{begins_double, is_single, IsMarkLen};

fn begins_double(text: &[u8]) -> bool
    ensures { result ≡ begins_double text.now }
{
    matches!(text, [b'=' | b'!' | b'<' | b'>', b'=', ..])
}

fn is_single(b: u8) -> bool
    ensures { result ≡ is_single b }
{
    matches!(
        b,
        b'(' | b')'
            | b'['
            | b']'
            | b'{'
            | b'}'
            | b';'
            | b':'
            | b','
            | b'@'
            | b'?'
            | b'!'
            | b'~'
            | b'&'
            | b'|'
            | b'^'
            | b'+'
            | b'-'
            | b'='
            | b'<'
            | b'>'
    )
}

// How many bytes the longest mark at the front has, 0 where none begins.
pub(crate) fn mark_len(text: &[u8]) -> usize
    ensures { IsMarkLen text.now result }
{
    if begins_double(text) {
        return 2;
    }
    match text.first() {
        Some(b) if is_single(*b) => 1,
        _ => 0,
    }
}
