//! What all items refer to.

ghost use Rattle.std.specs.Prelude.{◌≡◌, IfOk};
ghost use Rattle.topological_order.specs.Levels.{AreWithin};
ghost use Rattle.rdl_values.specs.Lineages.{lineages_of};
ghost use Rattle.rdl_refs.specs.Follows.{edges_of};
ghost use Rattle.rdl_bind.specs.Known.{IsBoundTree};

use crate::known::BoundTree;
use crate::made::edges_from;
use rb_base::NoMemory;
use rdl_refs::ItemOf;
use std::alloc::Global;
use topological_order::Lists;

/// What each of all items refers to.
fn edges_from_all(
    alloc: Global,
    known: BoundTree<'_, '_>,
    items: &[ItemOf],
) -> Result<Lists, NoMemory>
    requires known { IsBoundTree known }
    requires items { items.now ≡ known.numbers.now.items.items }
    ensures { IfOk result (λ v. v ≡ edges_of (lineages_of known.entry.props.now)) }
{
    let mut edges = Lists::new(alloc);
    for item in items {
        let list = edges_from(alloc, known, *item)?;
        edges.add(&list)?;
    }
    Ok(edges)
}

/// For each item of a tree the numbers of the items that it refers to, in the order of all items. The only error is want of memory.
/// Takes time in proportion to the number of items and of what they refer to.
pub fn edges(alloc: Global, known: BoundTree<'_, '_>) -> Result<Lists, NoMemory>
    requires { IsBoundTree known }
    ensures edges { IfOk result (λ v. v ≡ edges_of (lineages_of known.entry.props.now)) }
    ensures within { IfOk result (λ v. AreWithin v) }
{
    edges_from_all(alloc, known, &known.numbers.items)
}
