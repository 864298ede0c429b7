//! The tokens that are left, and what takes one of them.

ghost use Rattle.std.specs.Prelude.{◌≡◌, ℕ, ◌<◌, IfOk, OnErr, MatchOption, length, min};
ghost use Rattle.std.specs.Str.Parse.{digits_value};
ghost use Rattle.rb_grammar.specs.Readings.{at, Takes, Misses};
ghost use Rattle.v_syntax.specs.Grammar.{grammar, is, Quoted, Identifier, Decimal, High, Zero, Constant};
ghost use Rattle.v_design.specs.Lexemes as token;
ghost use Rattle.v_syntax.specs.Tokens.{spotted};
ghost use Rattle.v_parser.specs.Reading.{word_at, name_at, TakesOne};

use rb_base::{Place, Text};
use rb_grammar::Stop;
use std::alloc::{AllocError, Global};
use std::marker::Model;
use v_lexer::{constant_in, digit_of};
use v_syntax::{VClass, VSpot};

// The tokens that are left, as spots of a text.
#[derive(Drop)]
pub(crate) struct Parser<'t, 's> {
    pub alloc: Global,
    pub bytes: &'s [u8],
    pub rest: &'t [VSpot],
}

impl<'t, 's> Model for Parser<'t, 's> {
    ghost use Rattle.std.specs.Prelude.{List};
    ghost use Rattle.rb_grammar.specs.Spelling.{At};
    ghost use Rattle.v_design.specs.Lexemes.{Token};
    ghost use Rattle.v_syntax.specs.Tokens.{placed};

    ghost Value = { List (At Token) };

    ghost view = { λ p. placed p.bytes.now p.rest.now };
}

// A name, and where it stands.
#[derive(Clone, Copy)]
pub(crate) struct Name<'s> {
    pub text: &'s [u8],
    pub place: Place,
}

pub(crate) fn text(alloc: Global, bytes: &[u8]) -> Result<Text, AllocError>
    ensures { IfOk result (λ text. text ≡ bytes.now) }
{
    Ok(Text {
        bytes: Vec::from_slice(alloc, bytes)?,
    })
}

// The value of decimal digits, 255 where it is larger.
fn capped(digits: &[u8]) -> u8
    ensures { result ≡ min (digits_value 10 digits.now) 255 }
{
    let mut value: u8 = 0;
    for b in digits {
        value = value.saturating_mul(10).saturating_add(digit_of(*b));
    }
    value
}

fn is_quoted(bytes: &[u8], token: VSpot, text: &[u8]) -> bool
    ensures { result ≡ is (Quoted text.now) (spotted bytes.now token).token }
{
    match token.class {
        VClass::Word | VClass::Mark => token.text(bytes) == text,
        VClass::Id | VClass::Dec | VClass::Const => false,
    }
}

impl<'t, 's> Parser<'t, 's> {
    // How many tokens are left.
    pub(crate) fn count(&self) -> usize
        ensures { result ≡ length self.now }
    {
        self.rest.len()
    }

    // The next token is this word or mark.
    pub(crate) fn begins(&self, text: &[u8]) -> bool
        ensures { result ≡ at grammar (Quoted text.now) self.now }
    {
        match self.rest.first() {
            Some(token) => is_quoted(self.bytes, *token, text),
            None => false,
        }
    }

    // Takes the next token, if it is this word or mark, and answers its place.
    pub(crate) fn eat(&mut self, text: &[u8]) -> Option<Place>
        ensures { MatchOption result (Misses grammar (Quoted text.now) self.old self.new)
            (λ p. Takes grammar (Quoted text.now) self.old (word_at text.now p.0) self.new) }
    {
        let all: &'t [VSpot] = self.rest;
        let first = *all.first()?;
        if is_quoted(self.bytes, first, text) {
            self.rest = &all[1..];
            Some(first.place)
        } else {
            None
        }
    }

    // Takes the next token, which has to be this word or mark.
    pub(crate) fn expect(&mut self, text: &[u8]) -> Result<Place, Stop>
        ensures ok { IfOk result (λ p. Takes grammar (Quoted text.now) self.old (word_at text.now p.0) self.new) }
        ensures err { OnErr result (Misses grammar (Quoted text.now) self.old self.new) }
    {
        self.eat(text).ok_or(Stop::Syntax)
    }

    // Takes the next token, if it is a name.
    pub(crate) fn eat_name(&mut self) -> Option<Name<'s>>
        ensures { MatchOption result (Misses grammar Identifier self.old self.new)
            (λ n. Takes grammar Identifier self.old (name_at n.text.now n.place.0) self.new) }
    {
        let all: &'t [VSpot] = self.rest;
        let first = *all.first()?;
        match first.class {
            VClass::Id => {
                self.rest = &all[1..];
                Some(Name {
                    text: first.text(self.bytes),
                    place: first.place,
                })
            }
            _ => None,
        }
    }

    // Takes the next token, which has to be a name.
    pub(crate) fn name(&mut self) -> Result<Name<'s>, Stop>
        ensures ok { IfOk result (λ n. Takes grammar Identifier self.old (name_at n.text.now n.place.0) self.new) }
        ensures err { OnErr result (Misses grammar Identifier self.old self.new) }
    {
        self.eat_name().ok_or(Stop::Syntax)
    }

    // Takes the next token, if it is a constant, and answers its width and its value.
    pub(crate) fn eat_constant(&mut self) -> Option<(u8, u128)>
        ensures { MatchOption result (Misses grammar Constant self.old self.new)
            (λ k. TakesOne Constant (token.Const k.0 k.1) self.old self.new) }
    {
        let all: &'t [VSpot] = self.rest;
        let first = *all.first()?;
        match first.class {
            VClass::Const => {
                self.rest = &all[1..];
                Some(constant_in(first.text(self.bytes)))
            }
            _ => None,
        }
    }

    // Takes the next token, which has to be a constant.
    pub(crate) fn constant(&mut self) -> Result<(u8, u128), Stop>
        ensures ok { IfOk result (λ k. TakesOne Constant (token.Const k.0 k.1) self.old self.new) }
        ensures err { OnErr result (Misses grammar Constant self.old self.new) }
    {
        self.eat_constant().ok_or(Stop::Syntax)
    }

    // Takes the next token, which has to be a number, and answers it, or 255 where it is larger.
    pub(crate) fn decimal(&mut self) -> Result<u8, Stop>
        ensures ok { IfOk result (λ capped. (n : ℕ) × TakesOne Decimal (token.Number n) self.old self.new × (capped ≡ min n 255)) }
        ensures err { OnErr result (Misses grammar Decimal self.old self.new) }
    {
        let all: &'t [VSpot] = self.rest;
        let Some(first) = all.first().copied() else {
            return Err(Stop::Syntax);
        };
        match first.class {
            VClass::Dec => {
                self.rest = &all[1..];
                Ok(capped(first.text(self.bytes)))
            }
            _ => Err(Stop::Syntax),
        }
    }

    // Takes the next token, which has to be a number of 1 to 127.
    pub(crate) fn high(&mut self) -> Result<u8, Stop>
        ensures ok { IfOk result (λ n. TakesOne High (token.Number n) self.old self.new) }
        ensures err { OnErr result (Misses grammar High self.old self.new) }
    {
        let all: &'t [VSpot] = self.rest;
        let Some(first) = all.first().copied() else {
            return Err(Stop::Syntax);
        };
        match first.class {
            VClass::Dec => {
                let value = capped(first.text(self.bytes));
                if value == 0 || value > 127 {
                    return Err(Stop::Syntax);
                }
                self.rest = &all[1..];
                Ok(value)
            }
            _ => Err(Stop::Syntax),
        }
    }

    // Takes the next token, which has to be the number 0.
    pub(crate) fn zero(&mut self) -> Result<(), Stop>
        ensures ok { IfOk result (λ _. TakesOne Zero (token.Number 0) self.old self.new) }
        ensures err { OnErr result (Misses grammar Zero self.old self.new) }
    {
        let all: &'t [VSpot] = self.rest;
        let Some(first) = all.first().copied() else {
            return Err(Stop::Syntax);
        };
        match first.class {
            VClass::Dec if capped(first.text(self.bytes)) == 0 => {
                self.rest = &all[1..];
                Ok(())
            }
            _ => Err(Stop::Syntax),
        }
    }
}
