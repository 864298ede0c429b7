//! The order of items, and where there is none.

ghost use Rattle.std.specs.Prelude.{◌≡◌, Err, IfOk, MatchResult, Ok, length};
ghost use Rattle.rdl_refs.specs.Answers.{AreCircling, Orders};
ghost use Rattle.rdl_refs.specs.Walk.{AreUnordered};

use crate::circle::OrderError;
use crate::dependencies::Dependencies;
use crate::graph::{circle_from, unranked};
use rb_base::{NoMemory, Place};
use rdl_base::{Fault, Rule};
use rdl_failures::listed;
use std::alloc::Global;
use topological_order::{Rank, levelize};

/// A failure of R7 at the place of each thing without a rank.
fn unordered(alloc: Global, ranks: &[Rank], places: &[Place]) -> Result<Vec<Fault>, NoMemory>
    requires { length ranks.now ≡ length places.now }
    ensures { IfOk result (λ fs. AreUnordered ranks.now places.now (length places.now) fs.items) }
{
    let mut faults = Vec::new(alloc);
    for (thing, place) in places.iter().enumerate() {
        if ranks[thing].is_none() {
            faults.push(Fault {
                place: *place,
                rule: Rule::R7,
            })?;
        }
    }
    Ok(faults)
}

/// The numbers of all items, each behind those that it refers to. `Loop` comes exactly where references can be followed for
/// ever, with a circle of items; `NoMemory` for want of memory alone. Takes time in proportion to the number of references
/// between items.
pub fn order(alloc: Global, dependencies: &Dependencies<'_>) -> Result<Vec<u32>, OrderError>
    ensures { MatchResult result (λ order. Orders dependencies.now (Ok order.items)) (λ error. Orders dependencies.now (Err error)) }
{
    let levels = levelize(alloc, dependencies.edges())?;
    match unranked(&levels.ranks) {
        None => Ok(levels.order),
        Some(start) => Err(OrderError::Loop(circle_from(
            alloc,
            dependencies.edges(),
            &levels,
            start as u32,
        )?)),
    }
}

/// The failures of rule R7, by place: it stands at the instance of each field and register from an item of which references
/// can be followed for ever. `NoMemory` comes for want of memory alone.
pub fn circling(alloc: Global, dependencies: &Dependencies<'_>) -> Result<Vec<Fault>, NoMemory>
    ensures { IfOk result (λ list. AreCircling dependencies.now list.items) }
{
    let levels = levelize(alloc, dependencies.edges())?;
    listed(unordered(alloc, &levels.ranks, dependencies.places())?)
}
