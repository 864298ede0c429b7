//! Marks.

ghost use Rattle.std.specs.Prelude.{◌≡◌, ℕ, ◌≤◌, List, ◌++◌, length, MatchOption};
ghost use Rattle.rdl_tree.specs.Tokens.{spelling};
ghost use Rattle.rdl_tree.specs.declared.token.Mark as marks;

use rdl_tree::Mark;

// The longest mark at the front of a text.
pub(crate) fn mark_at(text: &[u8]) -> Option<Mark>
    ensures { MatchOption result ((m : marks.Mark) (more : List ℕ) → text.now ≡ spelling m ++ more → ⊥)
        (λ m. ((more : List ℕ) × (text.now ≡ spelling m ++ more))
        × ((n : marks.Mark) (more : List ℕ) → text.now ≡ spelling n ++ more → length (spelling n) ≤ length (spelling m))) }
{
    match text {
        [b'+', b'=', ..] => Some(Mark::PlusEquals),
        [b'%', b'=', ..] => Some(Mark::PercentEquals),
        [b'-', b'>', ..] => Some(Mark::Arrow),
        [b':', b':', ..] => Some(Mark::ColonColon),
        [b'*', b'*', ..] => Some(Mark::StarStar),
        [b'<', b'<', ..] => Some(Mark::ShiftLeft),
        [b'>', b'>', ..] => Some(Mark::ShiftRight),
        [b'<', b'=', ..] => Some(Mark::LessEqual),
        [b'>', b'=', ..] => Some(Mark::GreaterEqual),
        [b'=', b'=', ..] => Some(Mark::EqualEqual),
        [b'!', b'=', ..] => Some(Mark::NotEqual),
        [b'&', b'&', ..] => Some(Mark::AndAnd),
        [b'|', b'|', ..] => Some(Mark::OrOr),
        [b'{', ..] => Some(Mark::OpenBrace),
        [b'}', ..] => Some(Mark::CloseBrace),
        [b'[', ..] => Some(Mark::OpenBracket),
        [b']', ..] => Some(Mark::CloseBracket),
        [b'(', ..] => Some(Mark::OpenParen),
        [b')', ..] => Some(Mark::CloseParen),
        [b';', ..] => Some(Mark::Semicolon),
        [b':', ..] => Some(Mark::Colon),
        [b',', ..] => Some(Mark::Comma),
        [b'.', ..] => Some(Mark::Dot),
        [b'@', ..] => Some(Mark::At),
        [b'#', ..] => Some(Mark::Hash),
        [b'=', ..] => Some(Mark::Equals),
        [b'?', ..] => Some(Mark::Question),
        [b'!', ..] => Some(Mark::Not),
        [b'~', ..] => Some(Mark::Tilde),
        [b'\'', ..] => Some(Mark::Quote),
        [b'+', ..] => Some(Mark::Plus),
        [b'-', ..] => Some(Mark::Minus),
        [b'*', ..] => Some(Mark::Star),
        [b'/', ..] => Some(Mark::Slash),
        [b'%', ..] => Some(Mark::Percent),
        [b'<', ..] => Some(Mark::Less),
        [b'>', ..] => Some(Mark::Greater),
        [b'&', ..] => Some(Mark::And),
        [b'|', ..] => Some(Mark::Or),
        [b'^', ..] => Some(Mark::Caret),
        _ => None,
    }
}

// How many bytes a mark has.
pub(crate) fn mark_len(mark: Mark) -> usize
    ensures { result ≡ length (spelling mark) }
{
    match mark {
        Mark::PlusEquals
        | Mark::PercentEquals
        | Mark::Arrow
        | Mark::ColonColon
        | Mark::StarStar
        | Mark::ShiftLeft
        | Mark::ShiftRight
        | Mark::LessEqual
        | Mark::GreaterEqual
        | Mark::EqualEqual
        | Mark::NotEqual
        | Mark::AndAnd
        | Mark::OrOr => 2,
        _ => 1,
    }
}
