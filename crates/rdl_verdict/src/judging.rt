//! `judge`.

ghost use Rattle.std.specs.Prelude.{◌≡◌, ◌<◌, ◌^◌, ◌-◌, ℕ, IfErr, IfOk, List, Option, Some, length, option_copied};
ghost use Rattle.rdl_values.specs.Elaborated.{HasWords, nodes_of, top_name};
ghost use Rattle.rdl_values.specs.Elaboration.{IsClean};
ghost use Rattle.rdl_layers.specs.Answers.{IsSettled};
ghost use Rattle.rdl_addr.specs.Answers.{IsPlaced};
ghost use Rattle.rdl_refs.specs.Answers.{IsBound};
ghost use Rattle.rb_model.specs.Apart.{IsApart};
ghost use Rattle.rdl_rules.specs.Facts.{AreFacts};
ghost use Rattle.rdl_rules.specs.Answers.{IsBlockFor, meaning_fails};
ghost use Rattle.rdl_rules.specs.Numbers.{all_fields};
ghost use Rattle.rdl_encodings.specs.Encoded.{encodings_of};
ghost use Rattle.rdl_check.specs.Trees.{HaveOneForm};
ghost use Rattle.rdl_verdict.specs.Answers.{IsJudged, Judges, Refuses};
ghost use Rattle.rdl_verdict.specs.Steps.{FailsLate, HasAll, IsClear, IsGrown};
ghost use Rattle.rdl_verdict.specs.Verdict.{accesses};

use crate::error::JudgeError;
use crate::phases::{grow, lead, read, set, stand};
use bumpalo::Bump;
use rb_base::NoMemory;
use rb_model::Block;
use rdl_addr::Map;
use rdl_base::Fault;
use rdl_check::check;
use rdl_failures::PhaseError;
use rdl_lexer::spelled_in_order;
use rdl_meaning_rules::access_failures;
use rdl_nodes::{derived_forms_are_single, forms_are_single, names_are_words};
use rdl_refs::{Dependencies, Refs};
use rdl_rules::Settled;
use rdl_tree::{Elab, derived_in_order};
use rdl_values::name_decides_the_top;
use std::alloc::Global;

/// A source that breaks no rule: its instances, what their properties are set to, and the register block that it describes,
/// without wait states.
#[derive(Drop)]
pub struct Judged<'a> {
    pub elab: Elab<'a>,
    pub settled: Settled<'a>,
    pub block: Block,
}

// The block of a tree in which all stands where it may, or all failures of the last phase.
fn mean<'a>(
    alloc: Global,
    elab: &Elab<'a>,
    settled: &Settled<'a>,
    map: &Map<'a>,
    refs: Refs<'a>,
    dependencies: Dependencies<'a>,
) -> Result<Block, JudgeError>
    requires clean { IsClean elab.now }
    requires words { HasWords (Some (top_name elab.now)) elab.now.source.now }
    requires forms { HaveOneForm elab.now }
    requires settled { IsSettled elab.now }
    requires placed { IsPlaced elab.now }
    requires bound { IsBound elab.now }
    requires props { settled.now.props ≡ elab.now }
    requires facts { AreFacts elab.now settled.now.facts.items }
    requires map { map.now ≡ elab.now }
    requires refs { refs ≡ elab.now }
    requires dependencies { dependencies ≡ elab.now }
    ensures block { IfOk result (IsBlockFor elab.now) }
    ensures apart { IfOk result IsApart }
    ensures error { IfErr result (HasAll (meaning_fails elab.now)) }
{
    match check(alloc, elab, settled, map, refs, dependencies) {
        Ok(block) => Ok(block),
        Err(PhaseError::Faults(list)) => Err(JudgeError::Faults(list)),
        Err(PhaseError::NoMemory) => Err(JudgeError::NoMemory),
    }
}

// A tree whose instances break no rule, with its block, or the failures of the first later phase that has any.
fn describe<'a>(alloc: Global, arena: &'a Bump, elab: Elab<'a>) -> Result<Judged<'a>, JudgeError>
    requires clean { IsClean elab }
    requires words { HasWords (Some (top_name elab)) elab.source.now }
    requires forms { HaveOneForm elab }
    ensures tree { IfOk result (λ j. j.elab ≡ elab.entry) }
    ensures props { IfOk result (λ j. j.settled.props ≡ elab.entry) }
    ensures encodings { IfOk result (λ j. j.settled.encodings ≡ encodings_of (all_fields (nodes_of elab.entry))) }
    ensures clear { IfOk result (λ j. IsClear elab.entry j.block) }
    ensures error { IfErr result (FailsLate elab.entry) }
{
    let settled = set(alloc, arena, &elab)?;
    let map = stand(alloc, &elab, &settled.props)?;
    let (refs, dependencies) = lead(alloc, &elab, &settled.props)?;
    let block = mean(alloc, &elab, &settled, &map, refs, dependencies)?;
    Ok(Judged {
        elab,
        settled,
        block,
    })
}

/// The tree of a text, or the failures of the first of its three phases that has any.
pub(crate) fn tree_of<'a>(
    alloc: Global,
    arena: &'a Bump,
    text: &'a [u8],
    top: Option<&str>,
) -> Result<Elab<'a>, JudgeError>
    requires { length text.now < 2 ^ 32 - 1 }
    ensures grown { IfOk result (IsGrown (option_copied top.entry) text.now) }
    ensures error { IfErr result (Refuses (option_copied top.entry) text.now) }
{
    spelled_in_order();
    derived_in_order();
    name_decides_the_top();
    names_are_words();
    derived_forms_are_single();
    forms_are_single();
    let source = read(alloc, arena, text)?;
    let elab = grow(alloc, arena, source, top)?;
    Ok(elab)
}

/// What a source is: a tree of instances and a register block, or the failures of the first phase that has any. The top is the first
/// address map of the name at the root, or the last there without one. The trees stay in the arena.
pub fn judge<'a>(
    alloc: Global,
    arena: &'a Bump,
    text: &'a [u8],
    top: Option<&str>,
) -> Result<Judged<'a>, JudgeError>
    requires { length text.now < 2 ^ 32 - 1 }
    ensures { Judges (option_copied top.entry) text.now result }
{
    let elab = tree_of(alloc, arena, text, top)?;
    let judged = describe(alloc, arena, elab)?;
    Ok(judged)
}

/// The registers of a source that breaks no rule which a bus of 32 data bits doesn't access 32 bits at once, as failures by place.
/// The only error is want of memory.
pub fn judge_accesses(alloc: Global, judged: &Judged<'_>) -> Result<Vec<Fault>, NoMemory>
    requires { (wanted : Option (List ℕ)) × ((text : List ℕ) × IsJudged wanted text judged.now) }
    ensures { IfOk result (λ list. (wanted : Option (List ℕ)) (text : List ℕ) → IsJudged wanted text judged.now
        → accesses wanted judged.now.elab.source.now list.items) }
{
    name_decides_the_top();
    let list = access_failures(alloc, &judged.settled.props, &judged.elab)?;
    Ok(list)
}
