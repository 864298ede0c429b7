//! The uses of one item.

ghost use Rattle.std.specs.Prelude.{◌≡◌, ◌≢◌, [], ◌∷◌, Some, drop, IfOk, OnOk};
ghost use Rattle.rdl_children.specs.Children.{AddsGiven, AddsOne};
ghost use Rattle.rdl_children.specs.Items.{AddsUses, CanAdd};

use crate::child::Child;
use crate::item::ItemUses;
use bumpalo::Bump;
use rb_base::NoMemory;
use rdl_bodies::{Bodies, Body};
use rdl_tree::Name;
use rdl_uses::SizedInst;
use rdl_values::Parameters;
use std::alloc::Global;

// A copy of some dimensions in the arena.
fn dims_in<'a>(arena: &'a Bump, dims: &[u64]) -> Result<&'a [u64], NoMemory>
    ensures { IfOk result (λ r. r.now ≡ dims.now) }
{
    let copy = arena.try_alloc_slice_copy(dims)?;
    Ok(copy)
}

// Puts an instance behind the others.
fn add_one<'s, 'a>(
    arena: &'a Bump,
    site: usize,
    alias: Option<Name<'a>>,
    one: &SizedInst<'a>,
    list: &mut Vec<Child<'a>, &'s Bump>,
) -> Result<(), NoMemory>
    ensures { OnOk result (AddsOne site alias.entry one.now list.old.items list.new.items) }
{
    let dims = dims_in(arena, &one.dims)?;
    list.push(Child {
        site,
        inst: one.inst,
        dims,
        alias,
    })?;
    Ok(())
}

// Puts the instances of an item behind the others.
fn add_given<'s, 'a>(
    arena: &'a Bump,
    site: usize,
    alias: Option<Name<'a>>,
    given: &[SizedInst<'a>],
    list: &mut Vec<Child<'a>, &'s Bump>,
) -> Result<(), NoMemory>
    ensures { OnOk result (AddsGiven site alias.entry given.now list.old.items list.new.items) }
{
    for one in given {
        add_one(arena, site, alias, one, list)?;
    }
    Ok(())
}

// The bodies from a level on.
fn behind<'s>(numbers: &'s [usize], level: usize) -> &'s [usize]
    ensures { result.now ≡ drop level numbers.now }
{
    if level <= numbers.len() {
        &numbers[level..]
    } else {
        &[]
    }
}

// How many items are seen of the bodies round a definition.
fn uptos_of(
    alloc: Global,
    position: usize,
    uptos: &[usize],
    level: usize,
) -> Result<Vec<usize>, NoMemory>
    ensures { IfOk result (λ r. r.items ≡ position ∷ drop level uptos.now) }
{
    let mut list = Vec::new(alloc);
    list.push(position)?;
    let rest = behind(uptos, level);
    for upto in rest {
        list.push(*upto)?;
    }
    Ok(list)
}

// Puts the instances of an item behind the others, with the values of their parameters.
fn add_bound<'s, 'n, 'a>(
    alloc: Global,
    arena: &'a Bump,
    bodies: &mut Bodies<'n, 'a>,
    body: &Body<'n, 'a>,
    item: &ItemUses<'a>,
    parameters: &Parameters<'a>,
    list: &mut Vec<Child<'a>, &'s Bump>,
) -> Result<(), NoMemory>
    requires can { CanAdd bodies.old body.now item.now }
    requires given { item.now.uses.given.items ≢ [] }
    requires values { item.now.uses.parameters ≡ Some parameters.now }
    ensures { OnOk result (AddsUses bodies.old bodies.new body.now item.now list.old.items list.new.items) }
{
    let outer = behind(body.numbers, item.found.level);
    let uptos = uptos_of(alloc, item.found.position, body.uptos, item.found.level)?;
    let touched = parameters.touched();
    let site = bodies.list(alloc, arena, item.found.def, outer, &uptos, touched)?;
    add_given(arena, site, item.alias, &item.uses.given, list)?;
    Ok(())
}

/// Puts the instances of an item behind the others.
pub(crate) fn add_uses<'s, 'n, 'a>(
    alloc: Global,
    arena: &'a Bump,
    bodies: &mut Bodies<'n, 'a>,
    body: &Body<'n, 'a>,
    item: &ItemUses<'a>,
    list: &mut Vec<Child<'a>, &'s Bump>,
) -> Result<(), NoMemory>
    requires { CanAdd bodies.old body.now item.now }
    ensures { OnOk result (AddsUses bodies.old bodies.new body.now item.now list.old.items list.new.items) }
{
    if item.uses.given.is_empty() {
        return Ok(());
    }
    match &item.uses.parameters {
        Some(parameters) => add_bound(alloc, arena, bodies, body, item, parameters, list),
        None => Ok(()),
    }
}
