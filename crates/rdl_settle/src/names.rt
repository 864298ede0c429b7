//! What is visible in the bodies of nodes, from those that are open.

ghost use Rattle.std.specs.Prelude.{◌≡◌, IfOk, map};
ghost use Rattle.rdl_tree.specs.declared.node.Elab.{Elab};
ghost use Rattle.rdl_layers.specs.NodeNames.{AreNamesOf};
ghost use Rattle.rdl_open_bodies.specs.Spots.{IsOpenTree};
ghost use Rattle.rdl_settle.specs.Listed.{AreNumbersOf};

use bumpalo::Bump;
use bumpalo::collections::into_bump_slice;
use rb_base::NoMemory;
use rdl_bodies::Bodies;
use rdl_layers::NodeNames;
use rdl_open_bodies::{OpenTree, Spot};
use std::alloc::Global;

// A copy of some numbers in the arena.
fn kept<'a>(arena: &'a Bump, numbers: &[usize]) -> Result<&'a [usize], NoMemory>
    ensures { IfOk result (λ r. r.now ≡ numbers.now) }
{
    let mut list = Vec::with_capacity(arena, numbers.len())?;
    list.extend_from_slice(numbers)?;
    Ok(into_bump_slice(list))
}

// For each open body the numbers of those that are seen in it.
fn numbers_of<'a>(
    alloc: Global,
    arena: &'a Bump,
    bodies: &Bodies<'_, 'a>,
) -> Result<Vec<&'a [usize]>, NoMemory>
    ensures { IfOk result (λ r. AreNumbersOf bodies.now r.items) }
{
    let mut list = Vec::new(alloc);
    'bodies: while let Some(body) = bodies.body(list.len()) {
        list.push(kept(arena, body.numbers)?)?;
    }
    Ok(list)
}

// The number of the body of each node.
fn bodies_of(alloc: Global, spots: &[Spot]) -> Result<Vec<usize>, NoMemory>
    ensures { IfOk result (λ r. r.items ≡ map (λ o. o.body) spots.now) }
{
    let mut list = Vec::with_capacity(alloc, spots.len())?;
    for spot in spots {
        list.push(spot.body)?;
    }
    Ok(list)
}

/// What is visible in the body of each node of a tree, and in the root's, from the bodies that are open for them. The numbers of bodies
/// go to the arena `arena`.
pub(crate) fn names_of<'a>(
    alloc: Global,
    arena: &'a Bump,
    tree: OpenTree<'_, 'a>,
) -> Result<NodeNames<'a>, NoMemory>
    ensures { IfOk result (λ r. (e : Elab) → IsOpenTree e tree.entry → AreNamesOf e r) }
{
    let OpenTree { bodies, spots } = tree;
    let numbers = numbers_of(alloc, arena, &bodies)?;
    let own = bodies_of(alloc, &spots)?;
    Ok(NodeNames {
        tables: bodies.into_tables(),
        numbers,
        bodies: own,
    })
}
