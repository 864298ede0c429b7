//! A text, token by token.

ghost use Rattle.std.specs.Result.{result_err};
ghost use Rattle.std.specs.Prelude.{◌≡◌, ◌-◌, ◌^◌, ◌<◌, ◌≤◌, [], length, drop, IfOk, IfErr, IfSome, IfNone};

use crate::lexeme::lexeme_at;
use rb_base::Place;
use rb_grammar::separators_len;
use std::marker::Model;
use v_syntax::{VSpelling, VToken};

/// A text that is read token by token.
#[derive(Drop)]
pub struct VLexer<'s> {
    rest: &'s [u8],
    place: u32,
    fault: Option<VSpelling>,
}

impl<'s> Model for VLexer<'s> {
    ghost use Rattle.std.specs.Prelude.{◌+◌, ◌<◌, ◌^◌, length};
    ghost use Rattle.v_lexer.specs.Reading.{Reading};

    ghost Value = { Reading };

    ghost view = { λ l. record { size = l.place + length l.rest.now; rest = l.rest.now; fault = l.fault } };

    ghost invariant = { λ l. l.place + length l.rest.now < 2 ^ 32 };
}

impl<'s> VLexer<'s> {
    ghost use Rattle.rb_grammar.specs.Spelling.{IsPlace, StartsWith, SpellsFrom};
    ghost use Rattle.v_design.specs.Lexemes.{verilog};
    ghost use Rattle.v_syntax.specs.Tokens.{seen};
    ghost use Rattle.v_lexer.specs.Reading.{StandsAt, HasFaultAt, IsOfItsKind, IsMeant};

    /// Reads a text of fewer than 2^32 - 1 bytes from its front. Takes no memory.
    pub fn new(bytes: &'s [u8]) -> VLexer<'s>
        requires { length bytes.now < 2 ^ 32 - 1 }
        ensures { result ≡ record { size = length bytes.now; rest = bytes.now; fault = None } }
    {
        VLexer {
            rest: bytes,
            place: 0,
            fault: None,
        }
    }

    /// The next token, None at the end, or the place at which no token begins, which every further call answers again
    /// (IEEE 1364-2005, clause 3). Takes no memory.
    pub fn next(&mut self) -> Result<Option<VToken<'s>>, VSpelling>
        ensures token { IfOk result (λ next. IfSome next
            (λ t. StartsWith verilog self.old.size self.old.rest (seen t) self.new.rest)) }
        ensures text { IfOk result (λ next. IfSome next
            (λ t. StandsAt self.old.size self.old.rest t.text.now self.new.rest t.place.0)) }
        ensures kind { IfOk result (λ next. IfSome next IsOfItsKind) }
        ensures meant { IfOk result (λ next. IfSome next IsMeant) }
        ensures end { IfOk result (λ next. IfNone next
            (SpellsFrom verilog self.old.size self.old.rest [] × (self.new.rest ≡ []))) }
        ensures fault { self.old.fault ≡ None → IfErr result (λ f. HasFaultAt self.old.size self.old.rest f.place.0) }
        ensures again { IfSome self.old.fault (λ fault. result ≡ Err fault) }
        ensures remembered { self.new.fault ≡ result_err result }
        ensures size { self.new.size ≡ self.old.size }
    {
        if let Some(fault) = self.fault {
            return Err(fault);
        }
        match separators_len(self.rest, true) {
            Ok(len) => self.advance(len),
            Err(unclosed) => return Err(self.fail(unclosed.0)),
        }
        if self.rest.is_empty() {
            return Ok(None);
        }
        match lexeme_at(self.rest) {
            Some(lexeme) => {
                let left: &'s [u8] = self.rest;
                let place = Place(self.place);
                self.advance(lexeme.len);
                Ok(Some(VToken {
                    kind: lexeme.kind,
                    text: &left[..lexeme.len],
                    place,
                }))
            }
            None => Err(self.fail(0)),
        }
    }

    // Goes on by so many bytes.
    fn advance(&mut self, len: usize)
        requires { len ≤ length self.old.rest }
        ensures rest { self.new.rest ≡ drop len self.old.rest }
        ensures size { self.new.size ≡ self.old.size }
        ensures fault { self.new.fault ≡ self.old.fault }
    {
        let all: &'s [u8] = self.rest;
        self.rest = &all[len..];
        self.place += len as u32;
    }

    // The fault behind so many bytes, which is remembered.
    fn fail(&mut self, len: usize) -> VSpelling
        requires { len ≤ length self.old.rest }
        ensures fault { IsPlace self.old.size (drop len self.old.rest) result.place.0 }
        ensures remembered { self.new.fault ≡ Some result }
        ensures size { self.new.size ≡ self.old.size }
    {
        let fault = VSpelling {
            place: Place(self.place + len as u32),
        };
        self.fault = Some(fault);
        fault
    }
}
