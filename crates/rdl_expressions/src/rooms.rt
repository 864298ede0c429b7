//! Room in the arena for the parts and the lists of the tree, which is not given back when a list grows.

ghost use Rattle.std.specs.Prelude.{◌≡◌, [], IfErr, IfOk};

use crate::parser::Parser;
use bumpalo::Bump;
use rb_grammar::Stop;
use rdl_lexer::CompactToken;
use rdl_tree::{Mark, TokenKind};

/// What the tokens of a list are.
#[derive(Clone, Copy)]
pub enum Run {
    /// Each of the list ends with a `;`.
    Ended,
    /// A `,` stands between each and the next.
    Parted,
    /// Steps of a path, of which the first has been taken.
    Steps,
    /// Indices, each in square brackets.
    Indices,
    /// Mostly one.
    One,
}

// How many of these marks stand outside brackets, up to the bracket that closes, a ";" or a mark with nothing before it.
fn count_marks(tokens: &[CompactToken<'_>], wanted: Mark) -> usize {
    let mut depth: usize = 0;
    let mut count: usize = 0;
    let mut is_empty = true;
    for token in tokens {
        let TokenKind::Mark(mark) = token.token().kind else {
            is_empty = false;
            continue;
        };
        match mark {
            Mark::OpenBrace | Mark::OpenBracket | Mark::OpenParen => {
                depth = depth.saturating_add(1);
            }
            Mark::CloseBrace | Mark::CloseBracket | Mark::CloseParen => {
                if depth == 0 {
                    return count;
                }
                depth -= 1;
            }
            _ => {
                if depth == 0 && mark == wanted {
                    if is_empty {
                        return count;
                    }
                    count = count.saturating_add(1);
                    is_empty = true;
                    continue;
                }
                if depth == 0 && mark == Mark::Semicolon {
                    return count;
                }
            }
        }
        is_empty = false;
    }
    count
}

// How many dots stand between names alone.
fn count_dots(tokens: &[CompactToken<'_>]) -> usize {
    let mut count: usize = 0;
    for token in tokens {
        match token.token().kind {
            TokenKind::Mark(Mark::Dot) => count = count.saturating_add(1),
            TokenKind::Word => {}
            _ => return count,
        }
    }
    count
}

// About how many the list at the front has.
fn count(tokens: &[CompactToken<'_>], run: Run) -> usize {
    match run {
        Run::Ended => count_marks(tokens, Mark::Semicolon),
        Run::Parted => count_marks(tokens, Mark::Comma).saturating_add(1),
        Run::Steps => count_dots(tokens).saturating_add(1),
        Run::Indices => match tokens.first() {
            Some(token) if token.token().kind == TokenKind::Mark(Mark::OpenBracket) => 1,
            _ => 0,
        },
        Run::One => 1,
    }
}

impl<'t, 'a> Parser<'t, 'a> {
    /// A part of the tree in the arena. It is an `Err` where the arena has no room for it.
    pub fn lodged<T: Drop>(&self, one: T) -> Result<&'a T, Stop>
        ensures is { IfOk result (λ r. r.now ≡ one) }
        ensures memory { IfErr result (λ stop. stop ≡ Stop.NoMemory) }
    {
        Ok(self.arena.try_alloc(one)?)
    }

    /// A list with nothing in it yet, and mostly with room for just what the tokens that are left add to it. It has none
    /// where the arena refuses so much.
    pub fn room<T: Drop>(&self, run: Run) -> Vec<T, &'a Bump>
        ensures { result.items ≡ [] }
    {
        match Vec::with_capacity(self.arena, count(self.rest, run)) {
            Ok(list) => list,
            Err(_) => Vec::new(self.arena),
        }
    }
}
