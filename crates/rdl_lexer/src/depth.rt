//! How deep tokens nest.

ghost use Rattle.std.specs.Prelude.{◌≡◌, ◌≤◌, ◌<◌, ℕ, Bool, ◌↔◌, IsTrue, IfOk, OnOk, MatchOption, take};
ghost use Rattle.rdl_lexer.specs.Depth.{Depth, start, deeper, effect, IsWithin, StaysWithin, IsFirstTooDeep};
ghost use Rattle.rdl_lexer.specs.Depth as depths;

use crate::compact::CompactToken;
use bumpalo::Bump;
use rdl_tree::{Mark, Token, TokenKind};
use std::alloc::AllocFailed;
use std::marker::Model;

/// How many brackets may be open, and how many operators an expression may have outside its inner brackets.
pub const MOST: usize = 64;

/// What a token does to the depth.
#[derive(Clone, Copy)]
pub enum Effect {
    Opens,
    Closes,
    Operates,
    /// A `?`, an operator that waits for its `:`.
    Asks,
    /// A `:`.
    Answers,
    /// What ends an expression.
    Ends,
    Nothing,
}

/// An expression: its operators outside its inner brackets, and whether a `?` waits for its `:`.
#[derive(Clone, Copy)]
pub struct Level {
    pub operators: usize,
    pub waits: bool,
}

const FRESH: Level = Level {
    operators: 0,
    waits: false,
};

// The expression that is being read, and those round the brackets that are open, outermost first.
#[derive(Drop)]
struct Nest<'a> {
    inner: Level,
    outer: Vec<Level, &'a Bump>,
}

impl<'a> Model for Nest<'a> {
    ghost use Rattle.std.specs.Prelude.{reverse};
    ghost use Rattle.rdl_lexer.specs.Depth.{Depth};

    ghost Value = { Depth };

    ghost view = { λ n. record { inner = n.inner; outer = reverse n.outer.items } };
}

impl<'a> Nest<'a> {
    fn new(arena: &'a Bump) -> Self
        ensures { result ≡ start }
    {
        Nest {
            inner: FRESH,
            outer: Vec::new(arena),
        }
    }

    // Goes behind a token.
    fn pass(&mut self, effect: Effect) -> Result<(), AllocFailed<Level>>
        requires { self.old.inner.operators ≤ MOST }
        ensures { OnOk result (self.new ≡ deeper self.old effect) }
    {
        match effect {
            Effect::Opens => {
                self.outer.push(self.inner)?;
                self.inner = FRESH;
            }
            Effect::Closes => {
                if let Some(level) = self.outer.pop() {
                    self.inner = level;
                }
            }
            Effect::Operates => self.inner.operators += 1,
            Effect::Asks => {
                self.inner.operators += 1;
                self.inner.waits = true;
            }
            Effect::Answers => {
                if !self.inner.waits {
                    self.inner.operators = 0;
                }
                self.inner.waits = false;
            }
            Effect::Ends => self.inner = FRESH,
            Effect::Nothing => {}
        }
        Ok(())
    }

    fn is_within(&self) -> bool
        ensures { IsTrue result ↔ IsWithin self.now }
    {
        self.outer.len() <= MOST && self.inner.operators <= MOST
    }
}

fn effect_of(token: &Token<'_>) -> Effect
    ensures { result ≡ effect token.now }
{
    let TokenKind::Mark(mark) = token.kind else {
        return Effect::Nothing;
    };
    match mark {
        Mark::OpenBrace | Mark::OpenBracket | Mark::OpenParen => Effect::Opens,
        Mark::CloseBrace | Mark::CloseBracket | Mark::CloseParen => Effect::Closes,
        Mark::OrOr | Mark::AndAnd | Mark::Or | Mark::Caret | Mark::And => Effect::Operates,
        Mark::EqualEqual | Mark::NotEqual | Mark::Less | Mark::LessEqual => Effect::Operates,
        Mark::Greater | Mark::GreaterEqual | Mark::ShiftLeft => Effect::Operates,
        Mark::ShiftRight | Mark::Plus | Mark::Minus | Mark::Star => Effect::Operates,
        Mark::Slash | Mark::Percent | Mark::StarStar | Mark::Not => Effect::Operates,
        Mark::Question => Effect::Asks,
        Mark::Colon => Effect::Answers,
        Mark::Semicolon | Mark::Comma | Mark::Equals | Mark::At => Effect::Ends,
        Mark::PlusEquals | Mark::PercentEquals => Effect::Ends,
        _ => Effect::Nothing,
    }
}

/// The index of the first token that nests too deep (this project's rule).
pub fn first_too_deep(
    arena: &Bump,
    tokens: &[CompactToken<'_>],
) -> Result<Option<usize>, AllocFailed<Level>>
    ensures { IfOk result (λ deep. MatchOption deep (StaysWithin tokens.now) (IsFirstTooDeep tokens.now)) }
{
    let mut nest = Nest::new(arena);
    for (i, token) in tokens.iter().enumerate() {
        nest.pass(effect_of(&token.token()))?;
        if !nest.is_within() {
            return Ok(Some(i));
        }
    }
    Ok(None)
}
