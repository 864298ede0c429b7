//! Which way a word leads.

ghost use Rattle.std.specs.Prelude.{◌≡◌, if◌then◌else◌, None, Some, Option, cond};
ghost use Rattle.vcd_syntax.specs.Words as words;
ghost use Rattle.vcd_syntax.specs.Exits.{exit_by};

use crate::kind::Kind;
use crate::state::State;
use crate::words::{is, is_bits, is_code, is_scalar, is_time};

// The state, where the word is of the kind, or else another exit.
fn by(word: &[u8], kind: Kind, to: State, other: Option<(Kind, State)>) -> Option<(Kind, State)>
    ensures { result ≡ cond (words.is kind word.now) (Some (kind, to)) other }
{
    if is(kind, word) {
        Some((kind, to))
    } else {
        other
    }
}

// The state behind a change that ends here, where the word is the code of a variable.
fn taken(word: &[u8], to: State) -> Option<(Kind, State)>
    ensures { result ≡ cond (words.is Kind.Taker word.now) (Some (Kind.Taker, to)) None }
{
    if is_code(word) {
        Some((Kind::Taker, to))
    } else {
        None
    }
}

// One of two exits.
fn either(word: &[u8], first: Kind, to: State, second: Kind, other: State) -> Option<(Kind, State)>
    ensures { result ≡ cond (words.is first word.now) (Some (first, to)) (cond (words.is second word.now) (Some (second, other)) None) }
{
    if is(first, word) {
        Some((first, to))
    } else {
        by(word, second, other, None)
    }
}

fn in_scope(word: &[u8]) -> Option<(Kind, State)>
    ensures { result ≡ exit_by State.Variables word.now }
{
    if is(Kind::Heading, word) {
        return Some((Kind::Heading, State::VariablesSaid));
    }
    either(
        word,
        Kind::Var,
        State::NetKind,
        Kind::Upscope,
        State::UpscopeEnd,
    )
}

fn entry(word: &[u8]) -> Option<(Kind, State)>
    ensures { result ≡ exit_by State.Entries word.now }
{
    if is_scalar(word) {
        return Some((Kind::Scalar, State::Entries));
    }
    if is_bits(word) {
        return Some((Kind::Bits, State::Taker));
    }
    if is_time(word) {
        return Some((Kind::Time, State::Entries));
    }
    either(
        word,
        Kind::DumpVars,
        State::Dump,
        Kind::Comment,
        State::Commented,
    )
}

fn dumped(word: &[u8]) -> Option<(Kind, State)>
    ensures { result ≡ exit_by State.Dump word.now }
{
    if is_scalar(word) {
        return Some((Kind::Scalar, State::Dump));
    }
    if is_bits(word) {
        return Some((Kind::Bits, State::DumpTaker));
    }
    by(word, Kind::End, State::Entries, None)
}

/// What a word stands for at a state, and where it leads; None where it does not go on with a dump. It takes no memory.
pub fn exit_of(state: State, word: &[u8]) -> Option<(Kind, State)>
    ensures { result ≡ exit_by state word.now }
{
    match state {
        State::Front => either(
            word,
            Kind::Heading,
            State::FrontSaid,
            Kind::Scope,
            State::ScopeKind,
        ),
        State::FrontSaid => either(word, Kind::End, State::Front, Kind::Said, State::FrontSaid),
        State::ScopeKind => by(word, Kind::ScopeKind, State::ScopeName, None),
        State::ScopeName => by(word, Kind::ScopeName, State::ScopeEnd, None),
        State::ScopeEnd => by(word, Kind::End, State::Variables, None),
        State::Variables => in_scope(word),
        State::VariablesSaid => either(
            word,
            Kind::End,
            State::Variables,
            Kind::Said,
            State::VariablesSaid,
        ),
        State::NetKind => by(word, Kind::NetKind, State::Width, None),
        State::Width => by(word, Kind::Width, State::Code, None),
        State::Code => by(word, Kind::Code, State::Name, None),
        State::Name => by(word, Kind::Name, State::Range, None),
        State::Range => either(
            word,
            Kind::Range,
            State::VarEnd,
            Kind::End,
            State::Variables,
        ),
        State::VarEnd => by(word, Kind::End, State::Variables, None),
        State::UpscopeEnd => by(word, Kind::End, State::Back, None),
        State::Back => either(
            word,
            Kind::Heading,
            State::BackSaid,
            Kind::EndDefinitions,
            State::DefinitionsEnd,
        ),
        State::BackSaid => either(word, Kind::End, State::Back, Kind::Said, State::BackSaid),
        State::DefinitionsEnd => by(word, Kind::End, State::Entries, None),
        State::Entries => entry(word),
        State::Taker => taken(word, State::Entries),
        State::Dump => dumped(word),
        State::DumpTaker => taken(word, State::Dump),
        State::Commented => either(
            word,
            Kind::End,
            State::Entries,
            Kind::Said,
            State::Commented,
        ),
    }
}
