//! Operators (IEEE 1364-2005, clause 5.1).

ghost use Rattle.std.specs.Prelude.{◌≡◌, MatchOption};
ghost use Rattle.v_parser.specs.Reading.{one_of, two_of, IsPrefix, IsInfix, NoPrefix, NoInfix};

use crate::cursor::Parser;
use v_design::{VOne, VTwo};
use v_syntax::{VClass, VSpot};

// The operator before an operand that a mark is.
fn one_of(mark: &[u8]) -> Option<VOne>
    ensures { result ≡ one_of mark.now }
{
    match mark {
        b"~" => Some(VOne::Not),
        b"&" => Some(VOne::All),
        b"|" => Some(VOne::Any),
        b"^" => Some(VOne::Odd),
        _ => None,
    }
}

// The operator between operands that a mark is.
fn two_of(mark: &[u8]) -> Option<VTwo>
    ensures { result ≡ two_of mark.now }
{
    match mark {
        b"+" => Some(VTwo::Add),
        b"-" => Some(VTwo::Sub),
        b"&" => Some(VTwo::And),
        b"|" => Some(VTwo::Or),
        b"^" => Some(VTwo::Xor),
        b"==" => Some(VTwo::Eq),
        b"!=" => Some(VTwo::Ne),
        b"<" => Some(VTwo::Lt),
        b"<=" => Some(VTwo::Le),
        b">" => Some(VTwo::Gt),
        b">=" => Some(VTwo::Ge),
        _ => None,
    }
}

impl<'t, 's> Parser<'t, 's> {
    // prefix = "~" | "&" | "|" | "^" .
    pub(crate) fn prefix(&mut self) -> Option<VOne>
        ensures { MatchOption result (NoPrefix self.old self.new) (IsPrefix self.old self.new) }
    {
        let all: &'t [VSpot] = self.rest;
        let first = *all.first()?;
        match first.class {
            VClass::Word | VClass::Mark => {
                let op = one_of(first.text(self.bytes))?;
                self.rest = &all[1..];
                Some(op)
            }
            VClass::Id | VClass::Dec | VClass::Const => None,
        }
    }

    // infix = "+" | "-" | "&" | "|" | "^" | "==" | "!=" | "<" | "<=" | ">" | ">=" .
    pub(crate) fn infix(&mut self) -> Option<VTwo>
        ensures { MatchOption result (NoInfix self.old self.new) (IsInfix self.old self.new) }
    {
        let all: &'t [VSpot] = self.rest;
        let first = *all.first()?;
        match first.class {
            VClass::Word | VClass::Mark => {
                let op = two_of(first.text(self.bytes))?;
                self.rest = &all[1..];
                Some(op)
            }
            VClass::Id | VClass::Dec | VClass::Const => None,
        }
    }
}
