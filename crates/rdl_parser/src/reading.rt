//! A whole source: its tokens, its tree, and why it has none.

ghost use Rattle.std.specs.Prelude.{◌≡◌, ◌≢◌, ◌-◌, ◌^◌, ◌<◌, ℕ, List, [], length, drop, IfOk, IfErr, OnOk};
ghost use Rattle.rdl_tree.specs.Tree.{DerivesItems};
ghost use Rattle.rdl_lexer.specs.Depth.{StaysWithin, IsFirstTooDeep};
ghost use Rattle.rdl_parser.specs.Verdicts.{SpellsTokens, place_of, mark_rule, word_rule, rule_of, Reads, IsAccepted, HasError};
ghost use Rattle.rdl_parser.specs.Stopping.{StopsThere, IsJudged};

use crate::components::source;
use crate::error::ParseError;
use bumpalo::Bump;
use rb_base::Place;
use rb_grammar::Stop;
use rdl_base::{Keyword, Rule};
use rdl_expressions::Parser;
use rdl_lexer::{CompactToken, Lexer, first_too_deep};
use rdl_tree::{Item, Mark, Source, TokenKind};
use std::alloc::Global;

/// Why tokens are not read: these are left where they stop being a source, or memory was refused.
#[derive(Clone, Copy)]
pub enum Unread<'t, 'a> {
    Syntax(&'t [CompactToken<'a>]),
    NoMemory,
}

// The place of the next token, or the end.
fn place_of(left: &[CompactToken<'_>], end: Place) -> Place
    ensures { result ≡ place_of left.now end }
{
    match left.first() {
        Some(token) => token.token().place,
        None => end,
    }
}

// The rule that is broken by a mark where it can't stand.
fn mark_rule(mark: Mark) -> Rule
    ensures { result ≡ mark_rule mark }
{
    match mark {
        Mark::Tilde => Rule::O7,
        Mark::Quote => Rule::O9,
        _ => Rule::S1,
    }
}

// The rule that is broken by a reserved word where it can't stand.
fn word_rule(word: Keyword) -> Rule
    ensures { result ≡ word_rule word }
{
    match word {
        Keyword::Constraint => Rule::O1,
        Keyword::Mem => Rule::O2,
        Keyword::External => Rule::O3,
        Keyword::Struct | Keyword::Abstract => Rule::O4,
        Keyword::Property => Rule::O5,
        Keyword::Ruser | Keyword::Wuser => Rule::O6,
        Keyword::Accesstype | Keyword::Addressingtype => Rule::O8,
        Keyword::Onreadtype | Keyword::Onwritetype => Rule::O8,
        _ => Rule::S1,
    }
}

// The rule that is broken where these tokens are left.
fn rule_of(left: &[CompactToken<'_>]) -> Rule
    ensures { result ≡ rule_of left.now }
{
    let Some(token) = left.first() else {
        return Rule::S1;
    };
    match token.token().kind {
        TokenKind::Mark(mark) => mark_rule(mark),
        TokenKind::Reserved(word) => word_rule(word),
        _ => Rule::S1,
    }
}

// About how many tokens a source has: its runs of letters and digits, and its other bytes but white space.
fn count_tokens(src: &[u8]) -> usize {
    let mut count: usize = 0;
    let mut is_in_word = false;
    for byte in src {
        if *byte <= b' ' {
            is_in_word = false;
            continue;
        }
        let is_of_word = byte.is_ascii_alphanumeric() || *byte == b'_';
        if !is_of_word || !is_in_word {
            count = count.saturating_add(1);
        }
        is_in_word = is_of_word;
    }
    count
}

// All tokens of a source.
fn tokens<'a>(alloc: Global, src: &'a [u8]) -> Result<Vec<CompactToken<'a>>, ParseError>
    requires { length src.now < 2 ^ 32 - 1 }
    ensures spells { IfOk result (λ ts. SpellsTokens src.now ts.items) }
    ensures fault { IfErr result (λ e. e ≢ ParseError.NoMemory → HasError src.now e) }
{
    let mut lexer = Lexer::new(src);
    let mut tokens = Vec::with_capacity(alloc, count_tokens(src))?;
    'more: loop {
        match lexer.next() {
            Ok(Some(token)) => tokens.push(CompactToken::pack(token))?,
            Ok(None) => return Ok(tokens),
            Err(fault) => return Err(ParseError::Lex(fault)),
        }
    }
}

// The items that all tokens derive.
fn read<'t, 'a>(
    arena: &'a Bump,
    tokens: &'t [CompactToken<'a>],
) -> Result<&'a [Item<'a>], Unread<'t, 'a>>
    ensures tree { IfOk result (λ is. DerivesItems tokens.now [] is.now) }
    ensures stops { IfErr result (StopsThere tokens.now) }
{
    let mut parser = Parser {
        arena,
        rest: tokens,
    };
    match source(&mut parser) {
        Ok(items) => Ok(items),
        Err(Stop::Syntax) => Err(Unread::Syntax(parser.rest)),
        Err(Stop::NoMemory) => Err(Unread::NoMemory),
    }
}

// The error where the tokens stop being a source before these.
fn wrong(left: &[CompactToken<'_>], end: Place) -> ParseError
    ensures { result ≡ ParseError.Syntax (place_of left.now end) (rule_of left.now) }
{
    ParseError::Syntax {
        place: place_of(left, end),
        rule: rule_of(left),
    }
}

// The items of tokens, of which none nests too deep.
fn read_all<'a>(
    arena: &'a Bump,
    tokens: &[CompactToken<'a>],
    end: Place,
) -> Result<&'a [Item<'a>], ParseError>
    requires { StaysWithin tokens.now }
    ensures tree { IfOk result (λ is. DerivesItems tokens.now [] is.now) }
    ensures error { IfErr result (IsJudged tokens.now end) }
{
    match read(arena, tokens) {
        Ok(items) => Ok(items),
        Err(Unread::Syntax(left)) => Err(wrong(left, end)),
        Err(Unread::NoMemory) => Err(ParseError::NoMemory),
    }
}

// The error of tokens, of which the one at the index is the first that nests too deep.
fn read_cut<'a>(arena: &'a Bump, tokens: &[CompactToken<'a>], deep: usize, end: Place) -> ParseError
    requires { IsFirstTooDeep tokens.now deep }
    ensures { IsJudged tokens.now end result }
{
    let too_deep = ParseError::TooDeep {
        place: place_of(&tokens[deep..], end),
    };
    match read(arena, &tokens[..=deep]) {
        Ok(_) => too_deep,
        Err(Unread::Syntax(left)) if left.is_empty() => too_deep,
        Err(Unread::Syntax(left)) => wrong(left, end),
        Err(Unread::NoMemory) => ParseError::NoMemory,
    }
}

// The items of tokens, or their error.
fn items<'a>(
    arena: &'a Bump,
    tokens: &[CompactToken<'a>],
    end: Place,
) -> Result<&'a [Item<'a>], ParseError>
    ensures tree { IfOk result (λ is. DerivesItems tokens.now [] is.now) }
    ensures within { OnOk result (StaysWithin tokens.now) }
    ensures error { IfErr result (IsJudged tokens.now end) }
{
    match first_too_deep(arena, tokens)? {
        None => read_all(arena, tokens, end),
        Some(deep) => Err(read_cut(arena, tokens, deep, end)),
    }
}

// The tree of a source, or its error.
fn tree<'a>(alloc: Global, arena: &'a Bump, src: &'a [u8]) -> Result<&'a Source<'a>, ParseError>
    requires { length src.now < 2 ^ 32 - 1 }
    ensures tree { IfOk result (λ s. Reads src.now s.now.items.now) }
    ensures error { IfErr result (λ e. e ≢ ParseError.NoMemory → HasError src.now e) }
{
    let tokens = tokens(alloc, src)?;
    let items = items(arena, &tokens, Place(src.len() as u32))?;
    match arena.try_alloc(Source { items }) {
        Ok(source) => Ok(source),
        Err(_) => Err(ParseError::NoMemory),
    }
}

/// The tree of a source of fewer than 2^32 - 1 bytes (SystemRDL 2.0, annex B), in the arena. Its names are slices of the
/// source, and its tokens are given up at the end.
///
/// `Lex` is the first lexical fault, L1 to L6, wherever it stands. `Syntax` is the first token with which the tokens no
/// longer begin a source, or the source's length where all begin one and are none; its rule is S1, or the O rule that
/// names the token. `TooDeep` is the first token that nests too deep, where all tokens up to it begin a source: the 65th
/// open bracket, or the 65th operator of one expression outside its inner brackets. `NoMemory` is want of memory. A source
/// has one of these errors at most, and none where it is accepted (`one_verdict`).
pub fn parse<'a>(
    alloc: Global,
    arena: &'a Bump,
    src: &'a [u8],
) -> Result<&'a Source<'a>, ParseError>
    requires { length src.now < 2 ^ 32 - 1 }
    ensures tree { IfOk result (λ s. Reads src.now s.now.items.now) }
    ensures error { IfErr result (λ e. e ≢ ParseError.NoMemory → HasError src.now e) }
    ensures accepts { IsAccepted src.now → IfErr result (λ e. e ≡ ParseError.NoMemory) }
{
    tree(alloc, arena, src)
}
