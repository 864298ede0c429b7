//! The signals at the root, and the top.

ghost use Rattle.std.specs.Prelude.{◌≡◌, ◌∷◌, IfOk, OnOk};
ghost use Rattle.rdl_values.specs.Elaboration.{IsClean};
ghost use Rattle.rdl_values.specs.Instances.{signals};
ghost use Rattle.rdl_values.specs.Top.{root};
ghost use Rattle.rdl_nodes.specs.Rows.{AreRows};
ghost use Rattle.rdl_walk.specs.Walking.{AreWalking};
ghost use Rattle.rdl_open_bodies.specs.Spots.{IsOpenAt, IsOpenTree};
ghost use Rattle.rdl_open_bodies.specs.Starts.{AreInside, AreNodesOpen, IsTopStart, below_top_of};

use crate::chains::root_chain;
use crate::elements::starts_of;
use crate::opening::{open_node, open_nodes};
use crate::spots::{OpenTree, Round, Spot, Start};
use bumpalo::Bump;
use rb_base::NoMemory;
use rdl_bodies::open_root;
use rdl_failures::Failures;
use rdl_nodes::Row;
use rdl_top::find_top;
use rdl_tree::Elab;
use rdl_uses::Standing;
use rdl_walk::Walk;
use std::alloc::Global;

// How many levels there are below the top (rule E8).
const MOST_LEVELS: u8 = 32;

// Where the uses at the root stand.
const AT_ROOT: Standing = Standing {
    depth: 1,
    prefix: 0,
};

// Where the uses in the body of the top stand.
const IN_TOP: Standing = Standing {
    depth: 2,
    prefix: 0,
};

// The starts of the signals at the root.
fn signal_starts<'s, 'a>(
    alloc: Global,
    arena: &'a Bump,
    elab: &Elab<'a>,
    walk: &mut Walk<'s, '_, 'a>,
) -> Result<Vec<Start<'s>>, NoMemory>
    requires clean { IsClean elab.now }
    requires walking { AreWalking walk.old }
    requires some { IsOpenAt walk.old.bodies 0 (root elab.now.source.now) }
    ensures { IfOk result (λ r. AreInside elab.now walk.old walk.new r.items 0 (signals elab.now.source.now)) }
{
    let chain = root_chain(walk.scratch)?;
    let children = walk.children(alloc, arena, 0, AT_ROOT)?;
    let round = Round {
        within: 0,
        standing: AT_ROOT,
        chain,
    };
    let starts = starts_of(alloc, walk.scratch, children, &round, elab.signals.len())?;
    Ok(starts)
}

// Opens the bodies of the signals at the root.
fn open_signals<'a>(
    alloc: Global,
    arena: &'a Bump,
    elab: &Elab<'a>,
    rows: &[Row<'a>],
    walk: &mut Walk<'_, '_, 'a>,
    spots: &mut Vec<Spot>,
) -> Result<(), NoMemory>
    requires clean { IsClean elab.now }
    requires rows { AreRows elab.now rows.now }
    requires walking { AreWalking walk.old }
    requires some { IsOpenAt walk.old.bodies 0 (root elab.now.source.now) }
    ensures { OnOk result (AreNodesOpen elab.now walk.old walk.new spots.old.items spots.new.items (signals elab.now.source.now)) }
{
    let starts = signal_starts(alloc, arena, elab, walk)?;
    open_nodes(
        alloc,
        arena,
        elab,
        rows,
        elab.signals,
        &starts,
        0,
        walk,
        spots,
    )?;
    Ok(())
}

// A number before others.
fn uptos_of(alloc: Global, first: usize, others: &[usize]) -> Result<Vec<usize>, NoMemory>
    ensures { IfOk result (λ r. r.items ≡ first ∷ others.now) }
{
    let mut list = Vec::new(alloc);
    list.push(first)?;
    for other in others {
        list.push(*other)?;
    }
    Ok(list)
}

// The start of the top.
fn top_start<'s, 'a>(
    alloc: Global,
    arena: &'a Bump,
    elab: &Elab<'a>,
    walk: &mut Walk<'s, '_, 'a>,
) -> Result<Option<Start<'s>>, NoMemory>
    requires clean { IsClean elab.now }
    requires walking { AreWalking walk.old }
    requires some { IsOpenAt walk.old.bodies 0 (root elab.now.source.now) }
    ensures { IfOk result (IsTopStart elab.now walk.old walk.new) }
{
    let Some(top) = find_top(elab.source.items, Some(elab.top.name)) else {
        return Ok(None);
    };
    let Some(root) = walk.bodies.body(0) else {
        return Ok(None);
    };
    let uptos = uptos_of(alloc, top.position, root.uptos)?;
    // All values stand there, and put over those of the text they are the same.
    let values = elab.top.env.bound;
    let site = walk
        .bodies
        .list(alloc, arena, top.def, root.numbers, &uptos, values)?;
    let chain = root_chain(walk.scratch)?;
    Ok(Some(Start {
        site,
        within: 0,
        standing: IN_TOP,
        chain,
    }))
}

// Opens the bodies of the top and of the nodes below it.
fn open_top<'a>(
    alloc: Global,
    arena: &'a Bump,
    elab: &Elab<'a>,
    rows: &[Row<'a>],
    walk: &mut Walk<'_, '_, 'a>,
    spots: &mut Vec<Spot>,
) -> Result<(), NoMemory>
    requires clean { IsClean elab.now }
    requires rows { AreRows elab.now rows.now }
    requires walking { AreWalking walk.old }
    requires some { IsOpenAt walk.old.bodies 0 (root elab.now.source.now) }
    ensures { OnOk result (AreNodesOpen elab.now walk.old walk.new spots.old.items spots.new.items (below_top_of elab.now)) }
{
    let Some(start) = top_start(alloc, arena, elab, walk)? else {
        return Ok(());
    };
    open_node(
        alloc,
        arena,
        elab,
        rows,
        elab.top.id,
        &start,
        MOST_LEVELS,
        walk,
        spots,
    )?;
    Ok(())
}

/// Opens the bodies of all nodes of a tree, of which these are the rows. The numbers of the
/// bodies round each stand in the arena `scratch`, which has to last as long as the tree does. The failures that this finds are none of a clean tree.
pub fn open_tree<'s, 'a>(
    alloc: Global,
    scratch: &'s Bump,
    arena: &'a Bump,
    elab: &Elab<'a>,
    rows: &[Row<'a>],
) -> Result<OpenTree<'s, 'a>, NoMemory>
    requires clean { IsClean elab.now }
    requires rows { AreRows elab.now rows.now }
    ensures { IfOk result (IsOpenTree elab.now) }
{
    let mut failures = Failures::new(alloc);
    let bodies = open_root(alloc, scratch, arena, elab.source.items, &mut failures)?;
    let uses = Bump::new(alloc);
    let mut walk = Walk::new(alloc, &uses, bodies, failures);
    let mut spots = Vec::new(alloc);
    open_signals(alloc, arena, elab, rows, &mut walk, &mut spots)?;
    open_top(alloc, arena, elab, rows, &mut walk, &mut spots)?;
    let bodies = walk.bodies.without_keys(alloc);
    Ok(OpenTree { bodies, spots })
}
