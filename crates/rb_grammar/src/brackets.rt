//! How deep brackets are nested.

ghost use Rattle.std.specs.Prelude.{◌≡◌, ℕ, MatchOption};
ghost use Rattle.rb_grammar.specs.Brackets.{StaysWithin, IsFirstTooDeep};

use crate::nesting::Nesting;

/// A token that may open or close a bracket.
pub trait Bracket {
    ghost use Rattle.rb_grammar.specs.declared.nesting.Nesting.{Nesting};

    /// What it does.
    ghost nesting: { Self → Nesting };

    fn nesting(&self) -> Nesting
        ensures { result ≡ nesting self.now };
}

/// The index of the first token with which more than `most` brackets are open.
pub fn first_too_deep<T: Bracket>(tokens: &[T], most: usize) -> Option<usize>
    ensures { MatchOption result (StaysWithin T.nesting most tokens.now) (IsFirstTooDeep T.nesting most tokens.now) }
{
    let mut open = 0;
    for (i, token) in tokens.iter().enumerate() {
        match token.nesting() {
            Nesting::Opens if open == most => return Some(i),
            Nesting::Opens => open += 1,
            Nesting::Closes => open = open.saturating_sub(1),
            Nesting::Neither => {}
        }
    }
    None
}
