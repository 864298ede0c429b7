//! The elements of the uses in a body.

ghost use Rattle.std.specs.Prelude.{◌≡◌, ◌≤◌, ◌<◌, ◌-◌, ◌^◌, ℕ, List, IfOk, OnOk, flat_map, length, [], ◌∷◌};
ghost use Rattle.rdl_tree.specs.declared.node.Elab.{Elab};
ghost use Rattle.rdl_values.specs.Bodies.{Scope};
ghost use Rattle.rdl_values.specs.Instances.{given_by};
ghost use Rattle.rdl_values.specs.Paths.{Parent};
ghost use Rattle.rdl_values.specs.Rows.{product, row};
ghost use Rattle.rdl_values.specs.Uses.{Seen};
ghost use Rattle.rdl_bodies.specs.declared.bodies.Bodies.{Bodies};
ghost use Rattle.rdl_children.specs.Children.{AreChildren, IsChild};
ghost use Rattle.rdl_walk.specs.Walked.{element_of};
ghost use Rattle.rdl_open_bodies.specs.Starts.{AddsStarts, AreStarts, AreUsesIn, IsRoundOf, IsUseIn};

use crate::spots::{Round, Start};
use bumpalo::Bump;
use rb_base::NoMemory;
use rdl_children::Child;
use rdl_uses::{Standing, text_len};
use rdl_values::rows_by_number;
use rdl_walk::{count_of, row_of};
use std::alloc::Global;

// Puts the start of an element behind others.
fn add_element<'s>(
    scratch: &'s Bump,
    child: &Child<'_>,
    number: u64,
    round: &Round<'s>,
    starts: &mut Vec<Start<'s>>,
) -> Result<(), NoMemory>
    requires within { number < product child.now.dims.now }
    requires small { number < 2 ^ 64 - 1 }
    requires deep { round.now.standing.depth < 200 }
    ensures { OnOk result ((e : Elab) (t : Bodies) (p : Parent) (levels : ℕ) (scope : Scope) (s : Seen) (h : IsChild t child.now s) → IsUseIn p scope s → IsRoundOf e t round.now p levels scope
        → AddsStarts e t levels (element_of s h.closure h.bound (row child.now.dims.now number) ∷ []) starts.old.items starts.new.items) }
{
    let row = row_of(scratch, child.dims, number)?;
    let inst = child.inst;
    let name = inst.name;
    let Some(len) = text_len(round.standing.prefix, name.text, row) else {
        return Ok(());
    };
    let standing = Standing {
        depth: round.standing.depth + 1,
        prefix: len as u16 + 1,
    };
    starts.push(Start {
        site: child.site,
        within: round.within,
        standing,
        chain: round.chain,
    })?;
    Ok(())
}

// Puts the starts of the elements of a use behind others, no more than so many.
fn add_elements<'s>(
    scratch: &'s Bump,
    child: &Child<'_>,
    round: &Round<'s>,
    most: usize,
    starts: &mut Vec<Start<'s>>,
) -> Result<(), NoMemory>
    requires deep { round.now.standing.depth < 200 }
    ensures { OnOk result ((e : Elab) (t : Bodies) (p : Parent) (levels : ℕ) (scope : Scope) (s : Seen) → IsChild t child.now s → IsUseIn p scope s → IsRoundOf e t round.now p levels scope → length (given_by s) ≤ most
        → AddsStarts e t levels (given_by s) starts.old.items starts.new.items) }
{
    rows_by_number();
    let total = count_of(child.dims, most as u64);
    for number in 0..total {
        add_element(scratch, child, number, round, starts)?;
    }
    Ok(())
}

/// The starts of the nodes that the uses of a body give, of which there are no more than so many.
pub(crate) fn starts_of<'s>(
    alloc: Global,
    scratch: &'s Bump,
    children: &[Child<'_>],
    round: &Round<'s>,
    most: usize,
) -> Result<Vec<Start<'s>>, NoMemory>
    requires deep { round.now.standing.depth < 200 }
    ensures { IfOk result (λ r. (e : Elab) (t : Bodies) (p : Parent) (levels : ℕ) (scope : Scope) (ss : List Seen) → AreChildren t children.now ss → AreUsesIn p scope ss → IsRoundOf e t round.now p levels scope → length (flat_map given_by ss) ≤ most
        → AreStarts e t r.items levels (flat_map given_by ss)) }
{
    let mut starts = Vec::new(alloc);
    for child in children {
        add_elements(scratch, child, round, most, &mut starts)?;
    }
    Ok(starts)
}
