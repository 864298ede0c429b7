//! The survey of a source.

ghost use Rattle.std.specs.Prelude.{IfOk};
ghost use Rattle.std.specs.Option.{option_copied};
ghost use Rattle.rdl_tree.specs.InOrder.{IsInOrder};
ghost use Rattle.rdl_elab.specs.Surveying.{IsBegun, IsSurvey};

use crate::surveyed::Surveyed;
use crate::text::judge_text;
use crate::tops::list_found;
use crate::walking::{walk_root, walk_top};
use bumpalo::Bump;
use rb_base::NoMemory;
use rdl_bodies::open_root;
use rdl_failures::Failures;
use rdl_tree::Source;
use rdl_walk::Walk;
use std::alloc::Global;

// A survey that has judged the text of the root and found the top, and visited no node yet.
fn begin<'s, 'a>(
    alloc: Global,
    scratch: &'s Bump,
    arena: &'a Bump,
    source: &'a Source<'a>,
    wanted: Option<&[u8]>,
) -> Result<Surveyed<'s, 'a>, NoMemory>
    requires { IsInOrder source.now.items.now }
    ensures { IfOk result (IsBegun (option_copied wanted.entry) source.now) }
{
    let mut failures = Failures::new(alloc);
    let items = source.items;
    let found = judge_text(items, wanted, &mut failures)?;
    let mut bodies = open_root(alloc, scratch, arena, items, &mut failures)?;
    let top = list_found(alloc, arena, &mut bodies, &found, &mut failures)?;
    let walk = Walk::new(alloc, scratch, bodies, failures);
    Ok(Surveyed { walk, top })
}

/// Walks over a source with the top of a name, or where none is wanted with the last address map that has one: judges all rules on
/// instances, and counts the nodes, no further than the first that is one too many. The items of each body stand in order, as those of
/// a parsed tree do. The only error is want of memory.
pub fn survey<'s, 'a>(
    alloc: Global,
    scratch: &'s Bump,
    arena: &'a Bump,
    source: &'a Source<'a>,
    wanted: Option<&[u8]>,
) -> Result<Surveyed<'s, 'a>, NoMemory>
    requires { IsInOrder source.now.items.now }
    ensures { IfOk result (IsSurvey (option_copied wanted.entry) source.now) }
{
    let Surveyed { mut walk, top } = begin(alloc, scratch, arena, source, wanted)?;
    walk_root(alloc, arena, &mut walk)?;
    walk_top(alloc, arena, &mut walk, &top)?;
    Ok(Surveyed { walk, top })
}
