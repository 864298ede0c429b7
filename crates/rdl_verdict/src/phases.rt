//! The phases, one by one.

ghost use Rattle.std.specs.Prelude.{◌≡◌, ◌≢◌, ◌<◌, ◌^◌, ◌-◌, ◌++◌, ℕ, Contains, IfErr, IfOk, List, Option, length, option_copied};
ghost use Rattle.rdl_tree.specs.InOrder.{IsInOrder};
ghost use Rattle.rdl_values.specs.Elaborated.{nodes_of};
ghost use Rattle.rdl_values.specs.Elaboration.{Elaborates, IsClean};
ghost use Rattle.rdl_values.specs.Faults.{at_};
ghost use Rattle.rdl_values.specs.Phase3.{fails3};
ghost use Rattle.rdl_values.specs.Verdict.{IsListOf, IsRefusal};
ghost use Rattle.rdl_parser.specs.Verdicts.{HasError, Reads};
ghost use Rattle.rdl_layers.specs.Answers.{IsSettled, settings_fail};
ghost use Rattle.rdl_rules.specs.Facts.{AreFacts};
ghost use Rattle.rdl_rules.specs.Numbers.{all_fields};
ghost use Rattle.rdl_encodings.specs.Encoded.{encodings_of};
ghost use Rattle.rdl_addr.specs.Answers.{IsPlaced, places_fail};
ghost use Rattle.rdl_refs.specs.Answers.{IsBound};
ghost use Rattle.rdl_verdict.specs.Answers.{Refuses};
ghost use Rattle.rdl_verdict.specs.Steps.{HasAll, HasOne, stands_fail};

use crate::error::JudgeError;
use bumpalo::Bump;
use rb_base::NoMemory;
use rdl_addr::Map;
use rdl_base::{Fault, Rule};
use rdl_bind::bind;
use rdl_elab::elaborate;
use rdl_failures::{PhaseError, listed};
use rdl_layers::Props;
use rdl_parser::{ParseError, parse};
use rdl_place::place;
use rdl_refs::{Dependencies, Refs};
use rdl_rules::Settled;
use rdl_settle::settle;
use rdl_tree::{Elab, Source};
use std::alloc::Global;

// A failure that stands alone.
fn alone(alloc: Global, fault: Fault) -> JudgeError
    ensures { HasOne fault result }
{
    let mut list = Vec::new(alloc);
    match list.push(fault) {
        Ok(()) => JudgeError::Faults(list),
        Err(_) => JudgeError::NoMemory,
    }
}

// What an error of the tokens says of a text that has it, unless it is want of memory.
fn of_tokens(alloc: Global, error: ParseError) -> JudgeError
    ensures { (wanted : Option (List ℕ)) (text : List ℕ) → (error ≢ ParseError.NoMemory → HasError text error) → Refuses wanted text result }
{
    match error {
        ParseError::Lex(fault) => alone(alloc, fault),
        ParseError::Syntax { place, rule } => alone(alloc, Fault { place, rule }),
        ParseError::TooDeep { place } => alone(
            alloc,
            Fault {
                place,
                rule: Rule::S2,
            },
        ),
        ParseError::NoMemory => JudgeError::NoMemory,
    }
}

/// The tree of a text, or the first failure of its lexemes or its grammar.
pub(crate) fn read<'a>(
    alloc: Global,
    arena: &'a Bump,
    text: &'a [u8],
) -> Result<&'a Source<'a>, JudgeError>
    requires { length text.now < 2 ^ 32 - 1 }
    ensures tree { IfOk result (λ s. Reads text.now s.now.items.now) }
    ensures error { IfErr result (λ e. (wanted : Option (List ℕ)) → Refuses wanted text.now e) }
{
    match parse(alloc, arena, text) {
        Ok(source) => Ok(source),
        Err(error) => Err(of_tokens(alloc, error)),
    }
}

/// The instances of a tree, or all failures of the phase.
pub(crate) fn grow<'a>(
    alloc: Global,
    arena: &'a Bump,
    source: &'a Source<'a>,
    top: Option<&str>,
) -> Result<Elab<'a>, JudgeError>
    requires { IsInOrder source.now.items.now }
    ensures tree { IfOk result (λ e. Elaborates (option_copied top.entry) source.now e) }
    ensures error { IfErr result (HasAll (fails3 (option_copied top.entry) source.now)) }
{
    match elaborate(alloc, arena, source, top) {
        Ok(elab) => Ok(elab),
        Err(PhaseError::Faults(list)) => Err(JudgeError::Faults(list)),
        Err(PhaseError::NoMemory) => Err(JudgeError::NoMemory),
    }
}

/// The settings of a tree, with what is known beside them, or all failures of the phase.
pub(crate) fn set<'a>(
    alloc: Global,
    arena: &'a Bump,
    elab: &Elab<'a>,
) -> Result<Settled<'a>, JudgeError>
    requires { IsClean elab.now }
    ensures settled { IfOk result (λ s. IsSettled elab.now) }
    ensures props { IfOk result (λ s. s.props ≡ elab.now) }
    ensures facts { IfOk result (λ s. AreFacts elab.now s.facts.items) }
    ensures encodings { IfOk result (λ s. s.encodings ≡ encodings_of (all_fields (nodes_of elab.now))) }
    ensures error { IfErr result (HasAll (settings_fail elab.now)) }
{
    match settle(alloc, arena, elab) {
        Ok(settled) => Ok(settled),
        Err(PhaseError::Faults(list)) => Err(JudgeError::Faults(list)),
        Err(PhaseError::NoMemory) => Err(JudgeError::NoMemory),
    }
}

// The failures of both parts of a phase, as one list.
fn merged(first: Vec<Fault>, second: &[Fault]) -> Result<Vec<Fault>, NoMemory>
    ensures { IfOk result (λ r. IsListOf (λ rule place. Contains (first.items ++ second.now) (at_ rule place)) r.items) }
{
    let mut list = first;
    list.extend_from_slice(second)?;
    listed(list)
}

// The failures of the phase where some are of addresses or bits.
fn with_targets<'a>(
    alloc: Global,
    elab: &Elab<'a>,
    props: &Props<'a>,
    list: Vec<Fault>,
) -> JudgeError
    requires clean { IsClean elab.now }
    requires settled { IsSettled elab.now }
    requires tree { props.now ≡ elab.now }
    requires list { IsRefusal (places_fail elab.now) list.items }
    ensures { HasAll (stands_fail elab.now) result }
{
    match bind(alloc, elab, props) {
        Ok(_refs) => JudgeError::Faults(list),
        Err(PhaseError::Faults(more)) => match merged(list, &more) {
            Ok(all) => JudgeError::Faults(all),
            Err(NoMemory) => JudgeError::NoMemory,
        },
        Err(PhaseError::NoMemory) => JudgeError::NoMemory,
    }
}

/// Where all of a tree stands, or all failures of the phase.
pub(crate) fn stand<'a>(
    alloc: Global,
    elab: &Elab<'a>,
    props: &Props<'a>,
) -> Result<Map<'a>, JudgeError>
    requires clean { IsClean elab.now }
    requires settled { IsSettled elab.now }
    requires tree { props.now ≡ elab.now }
    ensures map { IfOk result (λ map. map ≡ elab.now) }
    ensures placed { IfOk result (λ map. IsPlaced elab.now) }
    ensures error { IfErr result (HasAll (stands_fail elab.now)) }
{
    match place(alloc, elab, props) {
        Ok(map) => Ok(map),
        Err(PhaseError::Faults(list)) => Err(with_targets(alloc, elab, props, list)),
        Err(PhaseError::NoMemory) => Err(JudgeError::NoMemory),
    }
}

/// What the references of a tree in which all stands lead to, and what its items refer to by them, or all failures of the phase.
pub(crate) fn lead<'a>(
    alloc: Global,
    elab: &Elab<'a>,
    props: &Props<'a>,
) -> Result<(Refs<'a>, Dependencies<'a>), JudgeError>
    requires clean { IsClean elab.now }
    requires settled { IsSettled elab.now }
    requires placed { IsPlaced elab.now }
    requires tree { props.now ≡ elab.now }
    ensures refs { IfOk result (λ found. found.0 ≡ elab.now) }
    ensures dependencies { IfOk result (λ found. found.1 ≡ elab.now) }
    ensures bound { IfOk result (λ found. IsBound elab.now) }
    ensures error { IfErr result (HasAll (stands_fail elab.now)) }
{
    match bind(alloc, elab, props) {
        Ok(found) => Ok(found),
        Err(PhaseError::Faults(list)) => Err(JudgeError::Faults(list)),
        Err(PhaseError::NoMemory) => Err(JudgeError::NoMemory),
    }
}
