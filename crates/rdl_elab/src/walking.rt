//! The walk over the signals at the root, and over the top.

ghost use Rattle.std.specs.Prelude.{List, OnOk, flat_map};
ghost use Rattle.rdl_tree.specs.declared.item.Source.{Source};
ghost use Rattle.rdl_values.specs.Instances.{Instance, most_names, with_below};
ghost use Rattle.rdl_walk.specs.Walked.{IsWalked};
ghost use Rattle.rdl_walk.specs.Walking.{AreWalking};
ghost use Rattle.rdl_elab.specs.Topped.{IsRootAt, IsTopAt};
ghost use Rattle.rdl_elab.specs.Surveying.{IsRootWalked};

use crate::surveyed::TopSite;
use bumpalo::Bump;
use rb_base::NoMemory;
use rdl_uses::Standing;
use rdl_walk::Walk;
use std::alloc::Global;

/// How many levels of nodes there are below the top at the most (rule E8).
const MOST_LEVELS: u8 = 32;

// Where the signals at the root stand.
const AT_ROOT: Standing = Standing {
    depth: 1,
    prefix: 0,
};

// Where the uses in the top stand.
const IN_TOP: Standing = Standing {
    depth: 2,
    prefix: 0,
};

/// Judges the uses at the root, and visits the signals there.
pub(crate) fn walk_root<'a>(
    alloc: Global,
    arena: &'a Bump,
    walk: &mut Walk<'_, '_, 'a>,
) -> Result<(), NoMemory>
    requires walking { AreWalking walk.old }
    requires some { (s : Source) × IsRootAt walk.old.bodies s }
    ensures { OnOk result ((s : Source) → IsRootAt walk.old.bodies s → IsRootWalked walk.old walk.new s) }
{
    let children = walk.children(alloc, arena, 0, AT_ROOT)?;
    walk.visit_all(alloc, arena, children, AT_ROOT, 0)?;
    Ok(())
}

/// Visits the top, if it gives a node, and all below it.
pub(crate) fn walk_top<'a>(
    alloc: Global,
    arena: &'a Bump,
    walk: &mut Walk<'_, '_, 'a>,
    top: &Option<TopSite<'a>>,
) -> Result<(), NoMemory>
    requires walking { AreWalking walk.old }
    requires some { (ns : List Instance) × IsTopAt walk.old.bodies top.now ns }
    ensures { OnOk result ((ns : List Instance) → IsTopAt walk.old.bodies top.now ns → IsWalked walk.old walk.new (flat_map (with_below most_names) ns)) }
{
    match top {
        Some(top) => walk.visit(alloc, arena, top.site, top.name.place, IN_TOP, MOST_LEVELS),
        None => Ok(()),
    }
}
