//! How many nodes a source has.

ghost use Rattle.rdl_tree.specs.InOrder.{IsInOrder};

use crate::trees::read;
use bumpalo::Bump;
use rb_base::NoMemory;
use rdl_elab::{elaborate, measure};
use rdl_failures::PhaseError;
use rdl_tree::Source;
use std::alloc::Global;
use std::io;

/// How many nodes are counted, and how many a tree of instances has. None where the instances break a rule.
type Counts = (u32, Option<u32>);

fn count<'a>(
    alloc: Global,
    arena: &'a Bump,
    source: &'a Source<'a>,
    top: Option<&str>,
) -> Result<Counts, NoMemory>
    requires { IsInOrder source.now.items.now }
{
    let counted = measure(alloc, arena, source, top)?;
    match elaborate(alloc, arena, source, top) {
        Ok(tree) => Ok((counted, Some(tree.count))),
        Err(PhaseError::Faults(_)) => Ok((counted, None)),
        Err(PhaseError::NoMemory) => Err(NoMemory),
    }
}

fn print_counts(rt: HostRuntime, counts: Counts) -> io::Result<()> {
    match counts {
        (counted, Some(count)) => println!(rt; "  {counted} nodes counted, {count} in the tree"),
        (counted, None) => println!(rt; "  {counted} nodes counted, no tree"),
    }
}

/// Prints the number of nodes under the top of a name, or under the last address map where the name is empty.
pub(crate) fn print_nodes(rt: HostRuntime, text: &str, name: &str) -> io::Result<()> {
    let arena = Bump::new(rt.alloc());
    let top = if name.is_empty() { None } else { Some(name) };
    let Some(source) = read(rt.alloc(), &arena, text.as_bytes()) else {
        return println!(rt; "  no tree of syntax");
    };
    match count(rt.alloc(), &arena, source, top) {
        Ok(counts) => print_counts(rt, counts),
        Err(NoMemory) => println!(rt; "  no memory"),
    }
}
