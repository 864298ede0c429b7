//! What settings refer to, and the circles of items.

ghost use Rattle.std.specs.Prelude.{◌≡◌};
ghost use Rattle.rdl_values.specs.Elaboration.{IsClean};

use crate::trees::instances;
use bumpalo::Bump;
use rb_base::NoMemory;
use rdl_base::Fault;
use rdl_bind::bind;
use rdl_failures::PhaseError;
use rdl_props::Prop;
use rdl_refs::{Dependencies, ItemOf, OrderError, Refs, circling, order};
use rdl_settle::settle;
use rdl_tree::Elab;
use std::alloc::Global;
use std::io;

/// The item that a setting of a node names.
#[derive(Clone, Copy)]
struct Named {
    node: u32,
    prop: Prop,
    item: ItemOf,
}

/// What settings name, how many items there are, how many of them make a circle, and the failures that come of it.
#[derive(Drop)]
struct Bound {
    names: Vec<Named>,
    items: usize,
    circle: Option<usize>,
    faults: Vec<Fault>,
}

static SHOWN: [Prop; 6] = [
    Prop::Resetsignal,
    Prop::We,
    Prop::Next,
    Prop::Hwset,
    Prop::Hwclr,
    Prop::Incr,
];

// What the settings of all nodes name, of some properties.
fn names_of(alloc: Global, refs: &Refs<'_>, count: u32) -> Result<Vec<Named>, NoMemory>
    requires { count ≡ refs.now.count }
{
    let mut names = Vec::new(alloc);
    for node in 0..count {
        for prop in &SHOWN {
            let Some(number) = refs.target(node, *prop) else {
                continue;
            };
            let Some(item) = refs.items().get(number as usize) else {
                continue;
            };
            names.push(Named {
                node,
                prop: *prop,
                item: *item,
            })?;
        }
    }
    Ok(names)
}

// What is known of references that lead to items.
fn found(
    alloc: Global,
    refs: &Refs<'_>,
    dependencies: &Dependencies<'_>,
    count: u32,
) -> Result<Bound, NoMemory>
    requires { count ≡ refs.now.count }
{
    let names = names_of(alloc, refs, count)?;
    let circle = match order(alloc, dependencies) {
        Ok(_order) => None,
        Err(OrderError::Loop(items)) => Some(items.len()),
        Err(OrderError::NoMemory) => return Err(NoMemory),
    };
    let faults = circling(alloc, dependencies)?;
    Ok(Bound {
        names,
        items: refs.items().len(),
        circle,
        faults,
    })
}

// What the references of a tree name. None where settings or references break a rule.
fn bound_of<'a>(alloc: Global, arena: &'a Bump, elab: &Elab<'a>) -> Result<Option<Bound>, NoMemory>
    requires { IsClean elab.now }
{
    let settled = match settle(alloc, arena, elab) {
        Ok(settled) => settled,
        Err(PhaseError::Faults(_)) => return Ok(None),
        Err(PhaseError::NoMemory) => return Err(NoMemory),
    };
    match bind(alloc, elab, &settled.props) {
        Ok((refs, dependencies)) => Ok(Some(found(alloc, &refs, &dependencies, elab.count)?)),
        Err(PhaseError::Faults(_)) => Ok(None),
        Err(PhaseError::NoMemory) => Err(NoMemory),
    }
}

// What the references of a source name. None where a rule is broken before.
fn read_names(alloc: Global, text: &str) -> Result<Option<Bound>, NoMemory> {
    let arena = Bump::new(alloc);
    match instances(alloc, &arena, text)? {
        Some(elab) => bound_of(alloc, &arena, &elab),
        None => Ok(None),
    }
}

fn print_bound(rt: HostRuntime, bound: &Bound) -> io::Result<()> {
    for name in &bound.names {
        println!(rt;
            "  {:?} of node {}: {:?} of node {}",
            name.prop, name.node, name.item.what, name.item.node
        )?;
    }
    match bound.circle {
        None => println!(rt; "  {} items in order", bound.items)?,
        Some(length) => println!(rt; "  a circle of {length} items")?,
    }
    for fault in &bound.faults {
        println!(rt; "  {} at {}", fault.rule.code(), fault.place.0)?;
    }
    Ok(())
}

fn print_sizes(rt: HostRuntime, bound: &Bound) -> io::Result<()> {
    let count = bound.faults.len();
    match bound.circle {
        None => println!(rt; "  {} items in order, {count} failures", bound.items),
        Some(length) => println!(rt;
            "  {} items, {length} of them a circle, {count} failures",
            bound.items
        ),
    }
}

/// Prints what the settings of a source name, and how many items there are in order, or the length of a circle with the
/// failures that come of it.
pub(crate) fn print_names(rt: HostRuntime, text: &str) -> io::Result<()> {
    match read_names(rt.alloc(), text) {
        Ok(Some(bound)) => print_bound(rt, &bound),
        Ok(None) => println!(rt; "  a rule is broken"),
        Err(NoMemory) => println!(rt; "  no memory"),
    }
}

/// Prints how many items a source has, how many of them make a circle, and how many failures come of it.
pub(crate) fn print_circle(rt: HostRuntime, text: &str) -> io::Result<()> {
    match read_names(rt.alloc(), text) {
        Ok(Some(bound)) => print_sizes(rt, &bound),
        Ok(None) => println!(rt; "  a rule is broken"),
        Err(NoMemory) => println!(rt; "  no memory"),
    }
}
