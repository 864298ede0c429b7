//! Numbered things that refer to one another: their order, or a circle.

ghost use Rattle.std.specs.Prelude.{◌≡◌, ◌<◌, ◌^◌, [], ℕ, IfNone, IfOk, IfSome, Some, length, slice_get, slice_index_or};
ghost use Rattle.topological_order.specs.Levels.{AreLevels, AreWithin};
ghost use Rattle.rdl_refs.specs.Graph.{IsCircleOf};
ghost use Rattle.rdl_refs.specs.Walk.{IsUnranked, IsUnrankedNeed};

use rb_base::NoMemory;
use std::alloc::Global;
use topological_order::{Levels, Lists, Rank};

/// The first thing without a rank.
pub(crate) fn unranked(ranks: &[Rank]) -> Option<usize>
    ensures found { IfSome result (IsUnranked ranks.now) }
    ensures none { IfNone result ((i : ℕ) → IsUnranked ranks.now i → ⊥) }
{
    for (thing, rank) in ranks.iter().enumerate() {
        if rank.is_none() {
            return Some(thing);
        }
    }
    None
}

/// The same things.
fn copied(alloc: Global, things: &[u32]) -> Result<Vec<u32>, NoMemory>
    ensures { IfOk result (λ r. r.items ≡ things.now) }
{
    let mut all = Vec::new(alloc);
    all.extend_from_slice(things)?;
    Ok(all)
}

/// The first of some things that has no rank.
fn unranked_need(ranks: &[Rank], needs: &[u32]) -> Option<u32>
    requires { (k j : ℕ) → slice_get needs.now k ≡ Some j → j < length ranks.now }
    ensures found { IfSome result (IsUnrankedNeed ranks.now needs.now) }
    ensures none { IfNone result ((j : ℕ) → IsUnrankedNeed ranks.now needs.now j → ⊥) }
{
    for need in needs {
        if ranks[*need as usize].is_none() {
            return Some(*need);
        }
    }
    None
}

/// The first of the things without a rank that one refers to.
fn next(edges: &Lists, levels: &Levels, thing: u32) -> u32
    requires levels { AreLevels edges.now levels.now.ranks.items levels.now.order.items }
    requires within { AreWithin edges.now }
    requires unranked { IsUnranked levels.now.ranks.items thing }
    ensures { IsUnrankedNeed levels.now.ranks.items (slice_index_or edges.now thing []) result }
{
    unranked_need(&levels.ranks, edges.get(thing as usize)).unwrap()
}

/// A circle that a thing without a rank is on or leads to. Each thing on the way is looked at once.
pub(crate) fn circle_from(
    alloc: Global,
    edges: &Lists,
    levels: &Levels,
    start: u32,
) -> Result<Vec<u32>, NoMemory>
    requires levels { AreLevels edges.now levels.now.ranks.items levels.now.order.items }
    requires within { AreWithin edges.now }
    requires start { IsUnranked levels.now.ranks.items start }
    ensures { IfOk result (λ c. IsCircleOf edges.now c.items) }
{
    let mut marks: Vec<Rank> = vec![in alloc; Rank::none(); edges.len()]?;
    let mut path: Vec<u32> = Vec::new(alloc);
    let mut thing = start;
    while marks[thing as usize].is_none() {
        marks[thing as usize] = Rank::of(path.len() as u32);
        path.push(thing)?;
        thing = next(edges, levels, thing);
    }
    let first = marks[thing as usize].get().unwrap_or(0);
    let (_, circle) = path.split_at(first as usize);
    copied(alloc, circle)
}
