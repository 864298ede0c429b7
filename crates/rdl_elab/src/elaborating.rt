//! The tree of instances of a source.

ghost use Rattle.std.specs.Prelude.{◌≡◌, IfOk};
ghost use Rattle.std.specs.Option.{option_copied};
ghost use Rattle.rdl_tree.specs.InOrder.{IsInOrder};
ghost use Rattle.rdl_values.specs.Parts.{is_empty};
ghost use Rattle.rdl_elab.specs.Answers.{Answers3};

use crate::surveyed::Surveyed;
use crate::wanted::bytes_of;
use crate::whole_survey::survey;
use crate::whole_tree::tree_of;
use bumpalo::Bump;
use rb_base::NoMemory;
use rdl_base::Fault;
use rdl_failures::PhaseError;
use rdl_tree::{Elab, Source};
use rdl_walk::Walk;
use std::alloc::Global;

// Whether nothing fails.
fn is_clean(surveyed: &Surveyed) -> bool
    ensures { result ≡ is_empty surveyed.now.walk.failures }
{
    surveyed.walk.failures.is_empty()
}

// All failures of a walk.
fn failures_of(alloc: Global, walk: Walk) -> Result<Vec<Fault>, NoMemory>
    ensures { IfOk result (λ list. list.items ≡ walk.entry.failures) }
{
    let failures = walk.failures;
    failures.into_list(alloc)
}

/// The instances of a source, with the top of a name, or where none is wanted with the last address map that has one: the signals at the
/// root and the top, each element of an array a node of its own, all in the arena. The items of each body stand in order, as those of
/// a parsed tree do.
///
/// Where a rule on instances fails (E1 to E14, and V rules in what instances are given) there is no tree, and the error is the list of
/// all failures, by place, and at one place in the order of the table of rules. Want of memory is the other error.
pub fn elaborate<'a>(
    alloc: Global,
    arena: &'a Bump,
    source: &'a Source<'a>,
    top: Option<&str>,
) -> Result<Elab<'a>, PhaseError>
    requires { IsInOrder source.now.items.now }
    ensures { Answers3 (option_copied top.entry) source.now result }
{
    let scratch = Bump::new(alloc);
    let surveyed = survey(alloc, &scratch, arena, source, bytes_of(top))?;
    if !is_clean(&surveyed) {
        let list = failures_of(alloc, surveyed.walk)?;
        return Err(PhaseError::Faults(list));
    }
    let tree = tree_of(alloc, arena, source, surveyed)?;
    Ok(tree)
}
