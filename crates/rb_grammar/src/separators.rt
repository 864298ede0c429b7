//! The separators at the front of a text.

ghost use Rattle.std.specs.Prelude.{◌≡◌, ℕ, ◌+◌, ◌<◌, ◌≤◌, Bool, false, IsTrue, List, [], ◌∷◌, ◌++◌, length, take, drop, codes, MatchOption, MatchResult, IfOk, IfErr};
ghost use Rattle.std.specs.List.{take_while};
ghost use Rattle.rb_grammar.specs.Separators.{is_blank, is_in_line, Lacks, IsSeparator, Skips, IsOpenComment, begins_separator};
ghost use Rattle.rb_grammar.specs.Separators.{LeadsBy};

/// A comment that is not closed, and how many bytes stand before it.
#[derive(Clone, Copy, Debug, PartialEq, Eq)]
pub struct Unclosed(pub usize);

/// A tab, a line feed, a form feed, a carriage return or a space.
pub fn is_blank(b: u8) -> bool
    ensures { result ≡ is_blank b }
{
    matches!(b, b'\t' | b'\n' | 12 | b'\r' | b' ')
}

// How many bytes stand before the end of the line.
fn line_len(text: &[u8]) -> usize
    ensures { result ≡ length (take_while is_in_line text.now) }
{
    text.iter().take_while(|b| **b != b'\n').count()
}

// How many bytes stand before the first end mark.
fn body_len(text: &[u8]) -> Option<usize>
    ensures { MatchOption result (Lacks text.now (codes "*/")) (λ n. Lacks (take n text.now) (codes "*/") × (text.now ≡ take n text.now ++ (codes "*/" ++ drop (n + 2) text.now))) }
{
    for i in 1..text.len() {
        if text[i - 1] == b'*' && text[i] == b'/' {
            return Some(i - 1);
        }
    }
    None
}

// How long the separator at the front is, 0 where none begins. None where it is a comment that is not closed.
fn separator_len(text: &[u8], comments: bool) -> Option<usize>
    ensures { MatchOption result (IsTrue comments × IsOpenComment text.now) (λ n. LeadsBy comments text.now n) }
{
    match text {
        [b, ..] if is_blank(*b) => Some(1),
        [b'/', b'/', body @ ..] if comments => Some(2 + line_len(body)),
        [b'/', b'*', body @ ..] if comments => Some(4 + body_len(body)?),
        _ => Some(0),
    }
}

/// How long the separators at the front of a text are, with comments or without.
pub fn separators_len(text: &[u8], comments: bool) -> Result<usize, Unclosed>
    ensures within { MatchResult result (λ n. n ≤ length text.now) (λ u. u.0 ≤ length text.now) }
    ensures ok { IfOk result (λ n. Skips comments text.now (drop n text.now) × (begins_separator comments (drop n text.now) ≡ false)) }
    ensures err { IfErr result (λ u. IsTrue comments × Skips comments text.now (drop u.0 text.now) × IsOpenComment (drop u.0 text.now)) }
{
    let mut len = 0;
    loop {
        match separator_len(&text[len..], comments) {
            None => return Err(Unclosed(len)),
            Some(0) => return Ok(len),
            Some(more) => len += more,
        }
    }
}
