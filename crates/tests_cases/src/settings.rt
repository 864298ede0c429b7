//! What a property of a node is set to.

ghost use Rattle.std.specs.Prelude.{◌≡◌};
ghost use Rattle.rdl_values.specs.Elaboration.{IsClean};

use crate::lists::parts;
use crate::texts::text_of;
use crate::trees::instances;
use bumpalo::Bump;
use rb_base::NoMemory;
use rdl_failures::PhaseError;
use rdl_layers::Props;
use rdl_props::{Prop, find};
use rdl_settle::settle;
use rdl_tree::Elab;
use std::alloc::Global;
use std::io;

// The setting of a property of a node, as a text. None where there is no such node.
fn text_at(
    alloc: Global,
    count: u32,
    props: &Props<'_>,
    node: u32,
    prop: Prop,
) -> Result<Option<String>, NoMemory>
    requires { props.now.count ≡ count }
{
    if node >= count {
        return Ok(None);
    }
    let text = text_of(alloc, props.value(node, prop))?;
    Ok(Some(text))
}

// The same of a tree. None where its settings break a rule, too.
fn setting<'a>(
    alloc: Global,
    arena: &'a Bump,
    tree: &Elab<'a>,
    node: u32,
    prop: Prop,
) -> Result<Option<String>, NoMemory>
    requires { IsClean tree.now }
{
    match settle(alloc, arena, tree) {
        Ok(settled) => text_at(alloc, tree.count, &settled.props, node, prop),
        Err(PhaseError::Faults(_)) => Ok(None),
        Err(PhaseError::NoMemory) => Err(NoMemory),
    }
}

fn value(
    alloc: Global,
    arena: &Bump,
    text: &str,
    node: u32,
    prop: Prop,
) -> Result<Option<String>, NoMemory> {
    match instances(alloc, arena, text)? {
        Some(tree) => setting(alloc, arena, &tree, node, prop),
        None => Ok(None),
    }
}

/// Prints the setting of a property of a node, as in `2 reset`.
pub(crate) fn print_value(rt: HostRuntime, text: &str, what: &str) -> io::Result<()> {
    let (node, name) = parts(what);
    let (Ok(node), Some(prop)) = (node.parse::<u32>(), find(name.as_bytes())) else {
        return println!(rt; "  no such setting: {what}");
    };
    let arena = Bump::new(rt.alloc());
    match value(rt.alloc(), &arena, text, node, prop) {
        Ok(Some(text)) => println!(rt; "  {node} {name}: {text}"),
        Ok(None) => println!(rt; "  {node} {name}: a rule is broken"),
        Err(NoMemory) => println!(rt; "  no memory"),
    }
}
