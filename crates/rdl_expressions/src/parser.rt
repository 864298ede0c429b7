//! The tokens that are left to a parser, and what every rule takes of them.

ghost use Rattle.std.specs.Prelude.{◌≡◌, ◌++◌, ◌∷◌, [], MatchOption, IfOk, IfErr, OnOk, OnErr, List};
ghost use Rattle.rb_grammar.specs.Readings.{Takes, Misses};
ghost use Rattle.rdl_tree.specs.Grammar.{grammar};
ghost use Rattle.rdl_tree.specs.Tree.{IsMark, IsWord, IsName, IsNameOf};
ghost use Rattle.rdl_tree.specs.declared.token.Terminal.TheVariants as terminals;
ghost use Rattle.rdl_tree.specs.Tree.{names_property, is_value};
ghost use Rattle.rdl_expressions.specs.Following.{TakesNumber, is_kind, is_type, is_trigger, has, LacksWords, TakesWord};

use bumpalo::Bump;
use rb_base::Place;
use rb_grammar::Stop;
use rdl_base::Keyword;
use rdl_lexer::CompactToken;
use rdl_tree::{Mark, Name, Terminal, Token, TokenKind};
use std::marker::Model;

/// Reserved words of one sort.
#[derive(Clone, Copy)]
pub enum Sort {
    /// What a component is.
    Kind,
    /// What a parameter's type begins with.
    Type,
    /// What stands before a property.
    Trigger,
    /// Properties.
    Prop,
    /// Values of properties.
    Value,
}

impl Sort {
    fn has(self, word: Keyword) -> bool
        ensures { result ≡ has self word }
    {
        match self {
            Sort::Kind => is_kind(word),
            Sort::Type => is_type(word),
            Sort::Trigger => is_trigger(word),
            Sort::Prop => names_property(word),
            Sort::Value => is_value(word),
        }
    }
}

fn is_kind(word: Keyword) -> bool
    ensures { result ≡ is_kind word }
{
    matches!(
        word,
        Keyword::Addrmap | Keyword::Regfile | Keyword::Reg | Keyword::Field | Keyword::Signal
    )
}

fn is_type(word: Keyword) -> bool
    ensures { result ≡ is_type word }
{
    matches!(
        word,
        Keyword::Longint | Keyword::Bit | Keyword::Boolean | Keyword::String
    )
}

fn is_trigger(word: Keyword) -> bool
    ensures { result ≡ is_trigger word }
{
    matches!(
        word,
        Keyword::Posedge
            | Keyword::Negedge
            | Keyword::Bothedge
            | Keyword::Level
            | Keyword::Nonsticky
    )
}

fn names_property(word: Keyword) -> bool
    ensures { result ≡ names_property word }
{
    matches!(
        word,
        Keyword::Woset | Keyword::Woclr | Keyword::Rclr | Keyword::Rset
    )
}

fn is_value(word: Keyword) -> bool
    ensures { result ≡ is_value word }
{
    match word {
        Keyword::Rw | Keyword::Wr | Keyword::R | Keyword::W | Keyword::Rw1 => true,
        Keyword::W1 | Keyword::Na | Keyword::Woset | Keyword::Woclr => true,
        Keyword::Wot | Keyword::Wzs | Keyword::Wzc | Keyword::Wzt => true,
        Keyword::Wclr | Keyword::Wset | Keyword::Rclr | Keyword::Rset => true,
        Keyword::Compact | Keyword::Regalign | Keyword::Fullalign => true,
        _ => false,
    }
}

/// The tokens that are left, and the arena in which the tree lies.
#[derive(Drop)]
pub struct Parser<'t, 'a> {
    pub arena: &'a Bump,
    pub rest: &'t [CompactToken<'a>],
}

impl<'t, 'a> Model for Parser<'t, 'a> {
    ghost use Rattle.std.specs.Prelude.{List};
    ghost use Rattle.rdl_tree.specs.declared.token.Token.{Token};

    ghost Value = { List Token };

    ghost view = { λ p. p.rest.now };
}

/// Adds one more to a list in the arena.
pub fn add<T: Drop>(list: &mut Vec<T, &Bump>, one: T) -> Result<(), Stop>
    ensures items { OnOk result (list.new.items ≡ list.old.items ++ (one ∷ [])) }
    ensures memory { IfErr result (λ stop. stop ≡ Stop.NoMemory) }
{
    list.push(one)?;
    Ok(())
}

impl<'t, 'a> Parser<'t, 'a> {
    /// Takes the next token, if it is of the terminal.
    pub fn eat(&mut self, terminal: Terminal) -> Option<Token<'a>>
        ensures { MatchOption result (Misses grammar terminal self.old self.new) (λ t. Takes grammar terminal self.old t self.new) }
    {
        let all: &'t [CompactToken<'a>] = self.rest;
        let next = all.first()?;
        let first = next.token();
        if first.is(terminal) {
            self.rest = &all[1..];
            Some(first)
        } else {
            None
        }
    }

    /// Takes the next token, if it is the mark.
    pub fn mark(&mut self, mark: Mark) -> Option<Token<'a>>
        ensures { MatchOption result (Misses grammar (terminals.Mark mark) self.old self.new) (λ t. IsMark mark self.old t self.new) }
    {
        self.eat(Terminal::Mark(mark))
    }

    /// Takes the next token, if it is the word.
    pub fn word(&mut self, word: Keyword) -> Option<Token<'a>>
        ensures { MatchOption result (Misses grammar (terminals.Reserved word) self.old self.new) (λ t. IsWord word self.old t self.new) }
    {
        self.eat(Terminal::Reserved(word))
    }

    /// Takes the next token, which has to be the mark.
    pub fn expect(&mut self, mark: Mark) -> Result<Token<'a>, Stop>
        ensures ok { IfOk result (λ t. IsMark mark self.old t self.new) }
        ensures err { OnErr result (Misses grammar (terminals.Mark mark) self.old self.new) }
    {
        self.mark(mark).ok_or(Stop::Syntax)
    }

    /// Takes the next token, if it is a name.
    pub fn name(&mut self) -> Option<Name<'a>>
        ensures { MatchOption result (Misses grammar terminals.Name self.old self.new) (IsName self.old self.new) }
    {
        let token = self.eat(Terminal::Name)?;
        Some(Name {
            text: token.text,
            place: token.place,
        })
    }

    /// Takes the next token, which has to be a name.
    pub fn expect_name(&mut self) -> Result<Name<'a>, Stop>
        ensures ok { IfOk result (IsName self.old self.new) }
        ensures err { OnErr result (Misses grammar terminals.Name self.old self.new) }
    {
        self.name().ok_or(Stop::Syntax)
    }

    /// Takes the next token, if it is a number.
    pub fn number(&mut self) -> Option<(u64, Place)>
        ensures { MatchOption result (Misses grammar terminals.Number self.old self.new) (λ n. TakesNumber self.old self.new n.0 n.1) }
    {
        let token = self.eat(Terminal::Number)?;
        match token.kind {
            TokenKind::Number(value) => Some((value, token.place)),
            _ => None,
        }
    }

    /// Takes the next token, if it is a word of the sort.
    pub fn word_of(&mut self, sort: Sort) -> Option<(Keyword, Token<'a>)>
        ensures { MatchOption result (LacksWords sort self.old self.new) (λ w. TakesWord sort self.old self.new w.0 w.1) }
    {
        let all: &'t [CompactToken<'a>] = self.rest;
        let next = all.first()?;
        let first = next.token();
        let TokenKind::Reserved(word) = first.kind else {
            return None;
        };
        if !sort.has(word) {
            return None;
        }
        self.rest = &all[1..];
        Some((word, first))
    }
}
