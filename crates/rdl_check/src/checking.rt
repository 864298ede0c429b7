//! `check`, and its verdict alone.

ghost use Rattle.std.specs.Prelude.{◌≡◌, IfOk};
ghost use Rattle.rb_model.specs.Apart.{IsApart};
ghost use Rattle.rdl_values.specs.Elaboration.{IsClean};
ghost use Rattle.rdl_layers.specs.Answers.{IsSettled};
ghost use Rattle.rdl_refs.specs.Answers.{IsBound};
ghost use Rattle.rdl_rules.specs.Facts.{AreFacts};
ghost use Rattle.rdl_rules.specs.Answers.{Answers6, IsReady};
ghost use Rattle.rdl_check.specs.Trees.{HaveOneForm, Means};

use crate::block::describe;
use rb_base::NoMemory;
use rb_model::Block;
use rdl_addr::Map;
use rdl_block_laws::{blocks_are_sound, words_are_apart};
use rdl_failures::PhaseError;
use rdl_meaning_rules::meaning_failures;
use rdl_nodes::rows;
use rdl_refs::{Dependencies, Refs};
use rdl_rules::Settled;
use rdl_sound_laws::aliases_have_primaries;
use rdl_tree::Elab;
use std::alloc::Global;

/// Whether a tree whose settings, places, references and dependencies these are fails none of the rules on meaning, F1 to F15 and R3 to
/// R8, or all failures.
pub fn meaning<'a>(
    alloc: Global,
    elab: &Elab<'a>,
    settled: &Settled<'a>,
    map: &Map<'a>,
    refs: &Refs<'a>,
    dependencies: &Dependencies<'a>,
) -> Result<(), PhaseError>
    requires clean { IsClean elab.now }
    requires settled { IsSettled elab.now }
    requires bound { IsBound elab.now }
    requires props { settled.now.props ≡ elab.now }
    requires facts { AreFacts elab.now settled.now.facts.items }
    requires map { map.now ≡ elab.now }
    requires refs { refs.now ≡ elab.now }
    requires dependencies { dependencies.now ≡ elab.now }
    ensures { Means elab.now result }
{
    let Ok(failures) = meaning_failures(
        alloc,
        &settled.props,
        map,
        refs,
        dependencies,
        &settled.facts,
        elab,
    ) else {
        return Err(PhaseError::NoMemory);
    };
    if failures.is_empty() {
        Ok(())
    } else {
        Err(PhaseError::Faults(failures))
    }
}

/// The register block of a tree whose settings, places, references and dependencies these are, sound and without wait states, or all
/// failures of the rules on meaning: F1 to F15 and R3 to R8. References and dependencies are let go where they are no longer needed.
pub fn check<'a>(
    alloc: Global,
    elab: &Elab<'a>,
    settled: &Settled<'a>,
    map: &Map<'a>,
    refs: Refs<'a>,
    dependencies: Dependencies<'a>,
) -> Result<Block, PhaseError>
    requires ready { IsReady elab.now }
    requires forms { HaveOneForm elab.now }
    requires props { settled.now.props ≡ elab.now }
    requires facts { AreFacts elab.now settled.now.facts.items }
    requires map { map.now ≡ elab.now }
    requires refs { refs ≡ elab.now }
    requires dependencies { dependencies ≡ elab.now }
    ensures answers { Answers6 elab.now result }
    ensures apart { IfOk result IsApart }
{
    blocks_are_sound();
    words_are_apart();
    aliases_have_primaries();
    if let Err(error) = meaning(alloc, elab, settled, map, &refs, &dependencies) {
        return Err(error);
    }
    let Ok(rows) = rows(alloc, elab) else {
        return Err(PhaseError::NoMemory);
    };
    match describe(alloc, elab, settled, map, refs, dependencies, &rows) {
        Ok(block) => Ok(block),
        Err(NoMemory) => Err(PhaseError::NoMemory),
    }
}
