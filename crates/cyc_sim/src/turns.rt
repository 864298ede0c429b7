//! The order in which narrow operations are computed.
use crate::kinds::{guard_kind, one_kind, two_kind};
use crate::operation::Operation;
use rb_base::NoMemory;
use sim_lanes::Kind;
use std::alloc::Global;

/// When an operation is computed: behind all that it reads, beside those of its kind that have as many before them.
#[derive(Clone, Copy, PartialEq, Eq, PartialOrd, Ord)]
struct Turn {
    rank: u32,
    kind: Kind,
    place: usize,
}

/// What an operation does over narrow values, if it is no constant.
fn kind_of(operation: Operation) -> Option<Kind> {
    match operation {
        Operation::Constant(_) => None,
        Operation::Part { .. } => Some(Kind::Part),
        Operation::Join { .. } => Some(Kind::Join),
        Operation::One { op, .. } => Some(one_kind(op)),
        Operation::Two { op, .. } => Some(two_kind(op)),
        Operation::Pick { .. } => Some(Kind::Pick),
        Operation::Guard { low, .. } => Some(guard_kind(low)),
    }
}

/// The rank of a place, 0 for those of pins and registers.
fn rank_at(ranks: &[u32], place: usize) -> u32 {
    if place < ranks.len() { ranks[place] } else { 0 }
}

/// One more than the greater rank of two places.
fn rank_above(ranks: &[u32], left: usize, right: usize) -> u32 {
    rank_at(ranks, left)
        .max(rank_at(ranks, right))
        .saturating_add(1)
}

/// One more than the greatest rank of the places that an operation reads.
fn rank_of(ranks: &[u32], operation: Operation) -> u32 {
    match operation {
        Operation::Constant(_) => 0,
        Operation::Part { from, .. } => rank_above(ranks, from, from),
        Operation::Join { high, low, .. } => rank_above(ranks, high, low),
        Operation::One { of, .. } => rank_above(ranks, of, of),
        Operation::Two { left, right, .. } => rank_above(ranks, left, right),
        Operation::Pick {
            test,
            chosen,
            other,
        } => rank_above(ranks, test, test).max(rank_above(ranks, chosen, other)),
        Operation::Guard { pin, next, .. } => rank_above(ranks, pin, next),
    }
}

/// When each operation is computed that is no constant.
fn turns_of(alloc: Global, operations: &[Operation], first: usize) -> Result<Vec<Turn>, NoMemory> {
    let mut ranks = vec![in alloc; 0; first]?;
    let mut turns = Vec::new(alloc);
    for operation in operations {
        let place = ranks.len();
        let rank = rank_of(&ranks, *operation);
        if let Some(kind) = kind_of(*operation) {
            turns.push(Turn { rank, kind, place })?;
        }
        ranks.push(rank)?;
    }
    Ok(turns)
}

/// The places of the operations that are no constants, in the order in which they are computed.
pub(crate) fn order_of(
    alloc: Global,
    operations: &[Operation],
    first: usize,
) -> Result<Vec<usize>, NoMemory> {
    let mut turns = turns_of(alloc, operations, first)?;
    turns.sort_unstable();
    let mut order = Vec::new(alloc);
    for turn in &turns {
        order.push(turn.place)?;
    }
    Ok(order)
}
