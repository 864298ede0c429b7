//! A source, token by token.

ghost use Rattle.std.specs.Result.{result_err};
ghost use Rattle.std.specs.Prelude.{◌≡◌, ◌-◌, ◌^◌, ◌<◌, ◌≤◌, [], length, drop, IfOk, IfErr, IfSome, IfNone};

use crate::lexeme::lexeme_at;
use rb_base::Place;
use rb_grammar::separators_len;
use rdl_base::{Fault, Rule};
use rdl_tree::Token;
use std::marker::Model;

/// A source that is read token by token.
#[derive(Drop)]
pub struct Lexer<'s> {
    rest: &'s [u8],
    place: u32,
    fault: Option<Fault>,
}

impl<'s> Model for Lexer<'s> {
    ghost use Rattle.std.specs.Prelude.{◌+◌, ◌<◌, ◌^◌, length};
    ghost use Rattle.rdl_lexer.specs.Reading.{Reading};

    ghost Value = { Reading };

    ghost view = { λ l. record { size = l.place + length l.rest.now; rest = l.rest.now; fault = l.fault } };

    ghost invariant = { λ l. l.place + length l.rest.now < 2 ^ 32 };
}

impl<'s> Lexer<'s> {
    ghost use Rattle.rb_grammar.specs.Spelling.{IsPlace, StartsWith, SpellsFrom};
    ghost use Rattle.rdl_lexer.specs.Lexemes.{seen, systemrdl};
    ghost use Rattle.rdl_lexer.specs.Faults.{IsFaultAt};

    /// Reads a source of fewer than 2^32 - 1 bytes from its front.
    pub fn new(src: &'s [u8]) -> Lexer<'s>
        requires { length src.now < 2 ^ 32 - 1 }
        ensures { result ≡ record { size = length src.now; rest = src.now; fault = None } }
    {
        Lexer {
            rest: src,
            place: 0,
            fault: None,
        }
    }

    /// The next token, None at the end, or the fault that stands there, L1 to L6, which every further call answers again
    /// (SystemRDL 2.0, clause 4).
    pub fn next(&mut self) -> Result<Option<Token<'s>>, Fault>
        ensures token { IfOk result (λ next. IfSome next
            (λ t. StartsWith systemrdl self.old.size self.old.rest (seen t) self.new.rest)) }
        ensures end { IfOk result (λ next. IfNone next
            (SpellsFrom systemrdl self.old.size self.old.rest [] × (self.new.rest ≡ []))) }
        ensures fault { self.old.fault ≡ None → IfErr result (IsFaultAt self.old.size self.old.rest) }
        ensures again { IfSome self.old.fault (λ fault. result ≡ Err fault) }
        ensures remembered { self.new.fault ≡ result_err result }
        ensures size { self.new.size ≡ self.old.size }
    {
        if let Some(fault) = self.fault {
            return Err(fault);
        }
        match separators_len(self.rest, true) {
            Ok(len) => self.advance(len),
            Err(unclosed) => return Err(self.fail(unclosed.0, Rule::L2)),
        }
        if self.rest.is_empty() {
            return Ok(None);
        }
        match lexeme_at(self.rest) {
            Ok(lexeme) => {
                let place = Place(self.place);
                self.advance(lexeme.len);
                Ok(Some(Token {
                    kind: lexeme.kind,
                    text: lexeme.text,
                    place,
                }))
            }
            Err(rule) => Err(self.fail(0, rule)),
        }
    }

    // Goes on by so many bytes.
    fn advance(&mut self, len: usize)
        requires { len ≤ length self.old.rest }
        ensures rest { self.new.rest ≡ drop len self.old.rest }
        ensures size { self.new.size ≡ self.old.size }
        ensures fault { self.new.fault ≡ self.old.fault }
    {
        let all: &'s [u8] = self.rest;
        self.rest = &all[len..];
        self.place += len as u32;
    }

    // The fault behind so many bytes, which is remembered.
    fn fail(&mut self, len: usize, rule: Rule) -> Fault
        requires { len ≤ length self.old.rest }
        ensures fault { (result.rule ≡ rule) × IsPlace self.old.size (drop len self.old.rest) result.place.0 }
        ensures remembered { self.new.fault ≡ Some result }
        ensures size { self.new.size ≡ self.old.size }
    {
        let fault = Fault {
            place: Place(self.place + len as u32),
            rule,
        };
        self.fault = Some(fault);
        fault
    }
}
