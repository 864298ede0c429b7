//! The tree of a source, and its instances.

ghost use Rattle.std.specs.Prelude.{IfOk, IfSome};
ghost use Rattle.rdl_tree.specs.InOrder.{IsInOrder};
ghost use Rattle.rdl_values.specs.Elaboration.{IsClean};

use bumpalo::Bump;
use rb_base::NoMemory;
use rdl_elab::elaborate;
use rdl_failures::PhaseError;
use rdl_lexer::spelled_in_order;
use rdl_parser::parse;
use rdl_tree::{Elab, Source, derived_in_order};
use rdl_values::name_decides_the_top;
use std::alloc::Global;

/// The tree of a source, whose items stand in order. None where it has none.
pub(crate) fn read<'a>(alloc: Global, arena: &'a Bump, text: &'a [u8]) -> Option<&'a Source<'a>>
    ensures { IfSome result (λ s. IsInOrder s.now.items.now) }
{
    spelled_in_order();
    derived_in_order();
    if text.len() >= u32::MAX as usize {
        return None;
    }
    match parse(alloc, arena, text) {
        Ok(source) => Some(source),
        Err(_) => None,
    }
}

// The instances of a tree. None where they break a rule.
fn grown<'a>(
    alloc: Global,
    arena: &'a Bump,
    source: &'a Source<'a>,
) -> Result<Option<Elab<'a>>, NoMemory>
    requires { IsInOrder source.now.items.now }
    ensures { IfOk result (λ o. IfSome o (λ e. IsClean e)) }
{
    name_decides_the_top();
    match elaborate(alloc, arena, source, None) {
        Ok(elab) => Ok(Some(elab)),
        Err(PhaseError::Faults(_)) => Ok(None),
        Err(PhaseError::NoMemory) => Err(NoMemory),
    }
}

/// The instances of a source. None where it has no tree, or where they break a rule.
pub(crate) fn instances<'a>(
    alloc: Global,
    arena: &'a Bump,
    text: &'a str,
) -> Result<Option<Elab<'a>>, NoMemory>
    ensures { IfOk result (λ o. IfSome o (λ e. IsClean e)) }
{
    match read(alloc, arena, text.as_bytes()) {
        Some(source) => grown(alloc, arena, source),
        None => Ok(None),
    }
}
