//! The items that the settings of all nodes name.

ghost use Rattle.std.specs.Prelude.{◌≡◌, IfOk};
ghost use Rattle.rdl_resolve.specs.Aimed.{IsNamedTree};
ghost use Rattle.rdl_resolve.specs.Named.{AreNamed};

use crate::aims::NamedTree;
use crate::node::{NamedItem, add_node};
use rb_base::NoMemory;
use rdl_base::Fault;
use rdl_layers::Props;
use std::alloc::Global;

/// For each node the items that its settings name, and the failures of R1 and R2.
#[derive(Drop)]
pub struct NamedItems {
    pub items: Vec<Vec<NamedItem>>,
    pub faults: Vec<Fault>,
}

/// The items that the settings of all nodes name, and all failures of R1 and R2, in the order of nodes and properties. The only error is
/// want of memory.
pub fn named_items<'a>(
    alloc: Global,
    known: NamedTree<'_, 'a>,
    props: &Props<'a>,
) -> Result<NamedItems, NoMemory>
    requires known { IsNamedTree known }
    requires tree { props.now ≡ known.elab.now }
    ensures { IfOk result (AreNamed props.now) }
{
    let mut items = Vec::new(alloc);
    let mut faults = Vec::new(alloc);
    for node in 0..known.elab.count {
        let mut named = Vec::new(alloc);
        add_node(alloc, known, props, node, &mut named, &mut faults)?;
        items.push(named)?;
    }
    Ok(NamedItems { items, faults })
}
