//! `verdict`.

ghost use Rattle.std.specs.Prelude.{◌≡◌, ◌<◌, ◌^◌, ◌-◌, [], IfErr, OnOk, length, option_copied};
ghost use Rattle.rdl_values.specs.Elaboration.{IsClean};
ghost use Rattle.rdl_values.specs.Verdict.{IsListOf};
ghost use Rattle.rdl_layers.specs.Answers.{IsSettled};
ghost use Rattle.rdl_refs.specs.Answers.{IsBound};
ghost use Rattle.rdl_rules.specs.Facts.{AreFacts};
ghost use Rattle.rdl_rules.specs.Answers.{meaning_fails};
ghost use Rattle.rdl_verdict.specs.Answers.{Decides};
ghost use Rattle.rdl_verdict.specs.Steps.{FailsLate, HasAll, IsFaultless};

use crate::error::JudgeError;
use crate::judging::tree_of;
use crate::phases::{lead, set, stand};
use bumpalo::Bump;
use rdl_addr::Map;
use rdl_check::meaning;
use rdl_failures::PhaseError;
use rdl_refs::{Dependencies, Refs};
use rdl_rules::Settled;
use rdl_tree::Elab;
use std::alloc::Global;

// Whether a tree in which all stands where it may breaks no rule on meaning, or all failures of that phase.
fn pass<'a>(
    alloc: Global,
    elab: &Elab<'a>,
    settled: &Settled<'a>,
    map: &Map<'a>,
    refs: &Refs<'a>,
    dependencies: &Dependencies<'a>,
) -> Result<(), JudgeError>
    requires clean { IsClean elab.now }
    requires settled { IsSettled elab.now }
    requires bound { IsBound elab.now }
    requires props { settled.now.props ≡ elab.now }
    requires facts { AreFacts elab.now settled.now.facts.items }
    requires map { map.now ≡ elab.now }
    requires refs { refs.now ≡ elab.now }
    requires dependencies { dependencies.now ≡ elab.now }
    ensures none { OnOk result (IsListOf (meaning_fails elab.now) []) }
    ensures error { IfErr result (HasAll (meaning_fails elab.now)) }
{
    match meaning(alloc, elab, settled, map, refs, dependencies) {
        Ok(()) => Ok(()),
        Err(PhaseError::Faults(list)) => Err(JudgeError::Faults(list)),
        Err(PhaseError::NoMemory) => Err(JudgeError::NoMemory),
    }
}

// Whether a tree whose settings break no rule breaks none later, or the failures of the first later phase that has any.
fn pass_on<'a>(alloc: Global, elab: &Elab<'a>, settled: &Settled<'a>) -> Result<(), JudgeError>
    requires clean { IsClean elab.now }
    requires settled { IsSettled elab.now }
    requires props { settled.now.props ≡ elab.now }
    requires facts { AreFacts elab.now settled.now.facts.items }
    ensures none { OnOk result (IsFaultless elab.now) }
    ensures error { IfErr result (FailsLate elab.now) }
{
    let map = stand(alloc, elab, &settled.props)?;
    let (refs, dependencies) = lead(alloc, elab, &settled.props)?;
    pass(alloc, elab, settled, &map, &refs, &dependencies)?;
    Ok(())
}

// Whether a tree whose instances break no rule breaks none later, or the failures of the first later phase that has any.
fn pass_later<'a>(alloc: Global, arena: &'a Bump, elab: &Elab<'a>) -> Result<(), JudgeError>
    requires { IsClean elab.now }
    ensures none { OnOk result (IsFaultless elab.now) }
    ensures error { IfErr result (FailsLate elab.now) }
{
    let settled = set(alloc, arena, elab)?;
    pass_on(alloc, elab, &settled)
}

/// Whether a source breaks no rule, or the failures of the first phase that has any: as `judge`, without the block. The trees stay in
/// the arena.
pub fn verdict<'a>(
    alloc: Global,
    arena: &'a Bump,
    text: &'a [u8],
    top: Option<&str>,
) -> Result<(), JudgeError>
    requires { length text.now < 2 ^ 32 - 1 }
    ensures { Decides (option_copied top.entry) text.now result }
{
    let elab = tree_of(alloc, arena, text, top)?;
    pass_later(alloc, arena, &elab)?;
    Ok(())
}
