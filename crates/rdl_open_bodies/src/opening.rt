//! Nodes whose bodies are opened.

ghost use Rattle.std.specs.Prelude.{◌≡◌, ◌≤◌, ◌<◌, ◌+◌, ℕ, List, suc, IfOk, OnOk, flat_map, length, map, slice_get, slice_index_or};
ghost use Rattle.rdl_tree.specs.declared.node.Elab.{Elab as AnyElab};
ghost use Rattle.rdl_values.specs.Instances.{Instance, children, with_below};
ghost use Rattle.rdl_values.specs.Lineages.{lineages_of};
ghost use Rattle.rdl_nodes.specs.Rows.{AreRows};
ghost use Rattle.rdl_targets.specs.At.{AreAt, IsAt, id_of};
ghost use Rattle.rdl_walk.specs.Walking.{AreWalking, CanAsk};
ghost use Rattle.rdl_open_bodies.specs.Spots.{IsSpot};
ghost use Rattle.rdl_open_bodies.specs.Starts.{AreInside, AreNodesOpen, CanOpenNode, CanOpenNodes, IsNodeOpen, IsStart};

use crate::chains::{chain_behind, last_of, nearest_of};
use crate::elements::starts_of;
use crate::spots::{Round, Spot, Start};
use bumpalo::Bump;
use rb_base::NoMemory;
use rdl_nodes::Row;
use rdl_targets::row_at;
use rdl_tree::{Elab, Node};
use rdl_walk::Walk;
use std::alloc::Global;

// The first of some numbers.
fn first_of(numbers: &[usize]) -> usize
    ensures { result ≡ slice_index_or numbers.now 0 0 }
{
    match numbers {
        [first, ..] => *first,
        [] => 0,
    }
}

// Opens the body of a node, and puts the node behind others.
fn open_one<'s, 'a>(
    alloc: Global,
    arena: &'a Bump,
    start: &Start<'s>,
    walk: &mut Walk<'s, '_, 'a>,
    spots: &mut Vec<Spot>,
) -> Result<Spot, NoMemory>
    requires walking { AreWalking walk.old }
    requires some { (e : AnyElab) × (levels : ℕ) × (n : Instance) × IsStart e walk.old.bodies start.now levels n }
    ensures { IfOk result (λ o. (e : AnyElab) (levels : ℕ) (n : Instance) → IsStart e walk.old.bodies start.now levels n → IsNodeOpen e walk.old walk.new spots.old.items spots.new.items o n) }
{
    let Some(site) = walk.bodies.site(start.site) else {
        return Ok(Spot {
            body: 0,
            within: 0,
            round: None,
            upto: 0,
            depth: 0,
        });
    };
    let body = walk
        .bodies
        .open(alloc, arena, start.site, &mut walk.failures)?;
    let depth = site.outer.len();
    let spot = Spot {
        body,
        within: start.within,
        round: nearest_of(last_of(start.chain, depth)),
        upto: first_of(site.uptos),
        depth,
    };
    spots.push(spot)?;
    Ok(spot)
}

// The starts of the nodes in the body of a node, of which there are no more than so many.
fn starts_in<'s, 'a>(
    alloc: Global,
    arena: &'a Bump,
    node: u32,
    spot: &Spot,
    start: &Start<'s>,
    most: usize,
    walk: &mut Walk<'s, '_, 'a>,
) -> Result<Vec<Start<'s>>, NoMemory>
    requires walking { AreWalking walk.old }
    requires some { CanAsk walk.old.bodies spot.now.body start.now.standing }
    requires deep { start.now.standing.depth < 200 }
    ensures { IfOk result (λ r. (e : AnyElab) (levels : ℕ) (n : Instance) → IsAt (lineages_of e) node n → IsSpot e walk.old.bodies spot.now n → IsStart e walk.old.bodies start.now (suc levels) n → length (children n) ≤ most
        → AreInside e walk.old walk.new r.items levels (children n)) }
{
    let chain = chain_behind(walk.scratch, node, last_of(start.chain, spot.depth))?;
    let children = walk.children(alloc, arena, spot.body, start.standing)?;
    let round = Round {
        within: spot.body,
        standing: start.standing,
        chain,
    };
    let starts = starts_of(alloc, walk.scratch, children, &round, most)?;
    Ok(starts)
}

// One of some starts.
fn start_at<'s>(starts: &[Start<'s>], at: usize) -> Option<Start<'s>>
    ensures { result ≡ slice_get starts.now at }
{
    starts.get(at).copied()
}

/// Opens the body of a node, which has the number, and those of the nodes so many levels below it.
#[cycle(open_nodes)]
pub(crate) fn open_node<'s, 'a>(
    alloc: Global,
    arena: &'a Bump,
    elab: &Elab<'a>,
    rows: &[Row<'a>],
    number: u32,
    start: &Start<'s>,
    levels: u8,
    walk: &mut Walk<'s, '_, 'a>,
    spots: &mut Vec<Spot>,
) -> Result<(), NoMemory>
    requires rows { AreRows elab.now rows.now }
    requires walking { AreWalking walk.old }
    requires some { CanOpenNode elab.now walk.old.bodies number start.now levels }
    ensures { OnOk result ((n : Instance) → IsAt (lineages_of elab.now) number n → AreNodesOpen elab.now walk.old walk.new spots.old.items spots.new.items (with_below levels n)) }
{
    let spot = open_one(alloc, arena, start, walk, spots)?;
    if levels == 0 {
        return Ok(());
    }
    let Some(row) = row_at(rows, number) else {
        return Ok(());
    };
    let nodes = row.node.children;
    if nodes.is_empty() {
        return Ok(());
    }
    let starts = starts_in(alloc, arena, number, &spot, start, nodes.len(), walk)?;
    let below = levels - 1;
    open_nodes(alloc, arena, elab, rows, nodes, &starts, below, walk, spots)?;
    Ok(())
}

/// The same of some nodes, one by one.
#[cycle(open_nodes)]
pub(crate) fn open_nodes<'s, 'a>(
    alloc: Global,
    arena: &'a Bump,
    elab: &Elab<'a>,
    rows: &[Row<'a>],
    nodes: &[Node<'a>],
    starts: &[Start<'s>],
    levels: u8,
    walk: &mut Walk<'s, '_, 'a>,
    spots: &mut Vec<Spot>,
) -> Result<(), NoMemory>
    requires rows { AreRows elab.now rows.now }
    requires walking { AreWalking walk.old }
    requires some { CanOpenNodes elab.now walk.old.bodies nodes.now starts.now levels }
    ensures { OnOk result ((ns : List Instance) → AreAt (lineages_of elab.now) (map id_of nodes.now) ns → AreNodesOpen elab.now walk.old walk.new spots.old.items spots.new.items (flat_map (with_below levels) ns)) }
{
    for (at, node) in nodes.iter().enumerate() {
        let Some(start) = start_at(starts, at) else {
            return Ok(());
        };
        open_node(
            alloc, arena, elab, rows, node.id, &start, levels, walk, spots,
        )?;
    }
    Ok(())
}
