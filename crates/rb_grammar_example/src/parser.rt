//! Reads tokens into a tree in an arena.

ghost use Rattle.std.specs.Prelude.{◌≡◌, ℕ, Err, ◌*◌, ◌+◌, ◌<◌, ◌≤◌, Bool, false, List, [], ◌∷◌, length, drop, IfOk, IfErr, OnOk, OnErr, MatchOption};
ghost use Rattle.rb_grammar.specs.Readings.{at, Takes, Misses, Same, Stops};
ghost use Rattle.rb_grammar.specs.Forms.{Non, Fits};
ghost use Rattle.rb_grammar.specs.Judging.{IsGood, IsWrongAt, IsTooDeepAt};
ghost use Rattle.rb_grammar_example.specs.Grammar.{settings, nesting, after_value, after_source, place_of};
ghost use Rattle.rb_grammar_example.specs.Stopping.{StopsThere};
ghost use Rattle.rb_grammar_example.specs.declared.token.Terminal.TheVariants as terminals;
ghost use Rattle.rb_grammar_example.specs.declared.token.Token.{Token};
ghost use Rattle.rb_base.specs.declared.place.Place.{Place};
ghost use Rattle.rb_grammar_example.specs.Grammar as rules;
ghost use Rattle.rb_grammar_example.specs.Tree.{IsMark, IsName, IsNumber, DerivesValue, DerivesValues, DerivesBound, DerivesEntry, DerivesEntries};

use crate::token::{Mark, Terminal, Token, TokenKind};
use crate::tree::{Bound, Entry, Name, Source, Value};
use bumpalo::Bump;
use bumpalo::collections::into_bump_slice;
use rb_base::Place;
use rb_grammar::{Stop, first_too_deep};
use std::marker::Model;

/// How many brackets may be open.
pub const MOST_OPEN: usize = 64;

/// Why there is no tree: the tokens stop being a source at a place, a bracket is nested too deep, or memory was
/// refused.
#[derive(Clone, Copy, Debug, PartialEq, Eq)]
pub enum ParseError {
    Syntax { place: Place },
    TooDeep { place: Place },
    NoMemory,
}

// Why tokens are not read: these are left where they stop being a source, or memory was refused.
#[derive(Clone, Copy)]
enum Unread<'a> {
    Syntax(&'a [Token<'a>]),
    NoMemory,
}

// The tokens that are left.
#[derive(Drop)]
struct Parser<'a> {
    arena: &'a Bump,
    rest: &'a [Token<'a>],
}

impl<'a> Model for Parser<'a> {
    ghost use Rattle.std.specs.Prelude.{List};
    ghost use Rattle.rb_grammar_example.specs.declared.token.Token.{Token};

    ghost Value = { List Token };

    ghost view = { λ p. p.rest.now };
}

impl<'a> Parser<'a> {
    // Takes the next token, if it is of the terminal.
    fn eat(&mut self, terminal: Terminal) -> Option<Token<'a>>
        ensures { MatchOption result (Misses settings terminal self.old self.new) (λ t. Takes settings terminal self.old t self.new) }
    {
        let all: &'a [Token<'a>] = self.rest;
        let first = *all.first()?;
        if first.is(terminal) {
            self.rest = &all[1..];
            Some(first)
        } else {
            None
        }
    }

    // Takes the next token, which has to be of the terminal.
    fn expect(&mut self, terminal: Terminal) -> Result<Token<'a>, Stop>
        ensures ok { IfOk result (λ t. Takes settings terminal self.old t self.new) }
        ensures err { OnErr result (Misses settings terminal self.old self.new) }
    {
        self.eat(terminal).ok_or(Stop::Syntax)
    }

    fn name(&mut self) -> Option<Name<'a>>
        ensures { MatchOption result (Misses settings terminals.Name self.old self.new) (IsName self.old self.new) }
    {
        let token = self.eat(Terminal::Name)?;
        Some(Name {
            text: token.text,
            place: token.place,
        })
    }

    fn number(&mut self) -> Option<u64>
        ensures { MatchOption result (Misses settings terminals.Number self.old self.new) (IsNumber self.old self.new) }
    {
        let token = self.eat(Terminal::Number)?;
        match token.kind {
            TokenKind::Number(n) => Some(n),
            _ => None,
        }
    }

    // value = number [ ".." number ] | name | values .
    #[cycle(value)]
    fn value(&mut self) -> Result<Value<'a>, Stop>
        ensures tree { IfOk result (DerivesValue self.old self.new) }
        ensures reads { OnOk result (Same settings after_value (Non rules.Value ∷ []) self.old [] self.new) }
        ensures stops { result ≡ Err Stop.Syntax → Stops settings after_value (Non rules.Value ∷ []) self.old self.new }
    {
        if let Some(first) = self.number() {
            if let Some(_) = self.eat(Terminal::Mark(Mark::To)) {
                let Some(last) = self.number() else {
                    return Err(Stop::Syntax);
                };
                return Ok(Value::Range(first, last));
            }
            return Ok(Value::Number(first));
        }
        if let Some(name) = self.name() {
            return Ok(Value::Name(name));
        }
        let values = self.values()?;
        Ok(Value::List(values))
    }

    // values = "[" [ value { "," value } ] "]" .
    #[cycle(value)]
    fn values(&mut self) -> Result<&'a [Value<'a>], Stop>
        ensures tree { IfOk result (λ xs. DerivesValues self.old self.new xs.now) }
        ensures reads { OnOk result (Same settings [] (Non rules.Values ∷ []) self.old [] self.new) }
        ensures stops { result ≡ Err Stop.Syntax → Stops settings [] (Non rules.Values ∷ []) self.old self.new }
    {
        let _open = self.expect(Terminal::Mark(Mark::Open))?;
        let mut values = Vec::new(self.arena);
        if let Some(_) = self.eat(Terminal::Mark(Mark::Close)) {
            return Ok(into_bump_slice(values));
        }
        let first = self.value()?;
        values.push(first)?;
        'more: while let Some(_) = self.eat(Terminal::Mark(Mark::Comma)) {
            let next = self.value()?;
            values.push(next)?;
        }
        let _close = self.expect(Terminal::Mark(Mark::Close))?;
        Ok(into_bump_slice(values))
    }

    // bound = "=" value | "=>" name .
    fn bound(&mut self) -> Result<Bound<'a>, Stop>
        ensures tree { IfOk result (DerivesBound self.old self.new) }
        ensures reads { OnOk result (Same settings after_value (Non rules.Bound ∷ []) self.old [] self.new) }
        ensures stops { result ≡ Err Stop.Syntax → Stops settings after_value (Non rules.Bound ∷ []) self.old self.new }
    {
        if let Some(_) = self.eat(Terminal::Mark(Mark::Equals)) {
            let value = self.value()?;
            return Ok(Bound::Value(value));
        }
        let _arrow = self.expect(Terminal::Mark(Mark::Arrow))?;
        let Some(name) = self.name() else {
            return Err(Stop::Syntax);
        };
        Ok(Bound::Alias(name))
    }

    // entry = name bound ";" .
    fn entry(&mut self) -> Result<Entry<'a>, Stop>
        ensures tree { IfOk result (DerivesEntry self.old self.new) }
        ensures reads { OnOk result (Same settings [] (Non rules.Entry ∷ []) self.old [] self.new) }
        ensures shorter { OnOk result (length self.new < length self.old) }
        ensures stops { result ≡ Err Stop.Syntax → Stops settings [] (Non rules.Entry ∷ []) self.old self.new }
    {
        let Some(name) = self.name() else {
            return Err(Stop::Syntax);
        };
        let bound = self.bound()?;
        let _end = self.expect(Terminal::Mark(Mark::Semicolon))?;
        Ok(Entry { name, bound })
    }

    // source = { entry } .
    fn source(&mut self) -> Result<Source<'a>, Stop>
        ensures tree { IfOk result (λ s. DerivesEntries self.old self.new s.entries.now) }
        ensures reads { OnOk result (Same settings after_source (Non rules.Source ∷ []) self.old [] self.new) }
        ensures stops { result ≡ Err Stop.Syntax → Stops settings after_source (Non rules.Source ∷ []) self.old self.new }
    {
        let mut entries = Vec::new(self.arena);
        'more: while self.begins_entry() {
            let entry = self.entry()?;
            entries.push(entry)?;
        }
        Ok(Source {
            entries: into_bump_slice(entries),
        })
    }

    fn begins_entry(&self) -> bool
        ensures { result ≡ at settings terminals.Name self.now }
    {
        match self.rest.first() {
            Some(token) => token.is(Terminal::Name),
            None => false,
        }
    }
}

// The tree of all tokens.
fn read<'a>(arena: &'a Bump, tokens: &'a [Token<'a>]) -> Result<Source<'a>, Unread<'a>>
    ensures tree { IfOk result (λ s. DerivesEntries tokens.now [] s.entries.now) }
    ensures fits { OnOk result (Fits settings (Non rules.Source) tokens.now) }
    ensures stops { IfErr result (StopsThere tokens.now) }
{
    let mut parser = Parser {
        arena,
        rest: tokens,
    };
    match parser.source() {
        Ok(source) if parser.rest.is_empty() => Ok(source),
        Ok(_) => Err(Unread::Syntax(parser.rest)),
        Err(Stop::Syntax) => Err(Unread::Syntax(parser.rest)),
        Err(Stop::NoMemory) => Err(Unread::NoMemory),
    }
}

/// The tree of a source, of which these are the tokens and this is the end.
pub fn parse<'a>(
    arena: &'a Bump,
    tokens: &'a [Token<'a>],
    end: Place,
) -> Result<Source<'a>, ParseError>
    ensures tree { IfOk result (λ s. DerivesEntries tokens.now [] s.entries.now) }
    ensures good { OnOk result (IsGood settings nesting MOST_OPEN (Non rules.Source) tokens.now) }
    ensures accepts { IsGood settings nesting MOST_OPEN (Non rules.Source) tokens.now → IfErr result (λ e. e ≡ ParseError.NoMemory) }
    ensures syntax { (place : Place) → result ≡ Err (ParseError.Syntax place) → (left : List Token) × IsWrongAt settings nesting MOST_OPEN (Non rules.Source) tokens.now left × (place ≡ place_of left end) }
    ensures too_deep { (place : Place) → result ≡ Err (ParseError.TooDeep place) → (i : ℕ) × IsTooDeepAt settings nesting MOST_OPEN (Non rules.Source) tokens.now i × (place ≡ place_of (drop i tokens.now) end) }
{
    let Some(deep) = first_too_deep(tokens, MOST_OPEN) else {
        return match read(arena, tokens) {
            Ok(source) => Ok(source),
            Err(Unread::Syntax(left)) => Err(ParseError::Syntax {
                place: place_of(left, end),
            }),
            Err(Unread::NoMemory) => Err(ParseError::NoMemory),
        };
    };
    let too_deep = ParseError::TooDeep {
        place: place_of(&tokens[deep..], end),
    };
    match read(arena, &tokens[..=deep]) {
        Ok(_) => Err(too_deep),
        Err(Unread::Syntax(left)) if left.is_empty() => Err(too_deep),
        Err(Unread::Syntax(left)) => Err(ParseError::Syntax {
            place: place_of(left, end),
        }),
        Err(Unread::NoMemory) => Err(ParseError::NoMemory),
    }
}

// The place of the next token, or the end.
fn place_of(left: &[Token<'_>], end: Place) -> Place
    ensures { result ≡ place_of left.now end }
{
    match left.first() {
        Some(token) => token.place,
        None => end,
    }
}
