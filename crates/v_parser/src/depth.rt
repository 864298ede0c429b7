//! How deep brackets are nested.

ghost use Rattle.std.specs.Prelude.{MatchOption};
ghost use Rattle.rb_grammar.specs.Brackets.{StaysWithin, IsFirstTooDeep};
ghost use Rattle.v_parser.specs.Reading.{nesting_in};

use rb_grammar::Nesting;
use v_syntax::VSpot;

// The index of the first token with which more than `most` brackets are open.
pub(crate) fn first_too_deep(bytes: &[u8], tokens: &[VSpot], most: usize) -> Option<usize>
    ensures { MatchOption result (StaysWithin (nesting_in bytes.now) most tokens.now) (IsFirstTooDeep (nesting_in bytes.now) most tokens.now) }
{
    let mut open = 0;
    for (i, token) in tokens.iter().enumerate() {
        match token.nesting(bytes) {
            Nesting::Opens if open == most => return Some(i),
            Nesting::Opens => open += 1,
            Nesting::Closes => open = open.saturating_sub(1),
            Nesting::Neither => {}
        }
    }
    None
}
