//! The indices that a step wants, and the nodes that have them.

ghost use Rattle.std.specs.Prelude.{◌≡◌, List, IfOk, OnOk, option_map, Some, ◌++◌, filter, flat_map};
ghost use Rattle.std.specs.Result.{result_ok};
ghost use Rattle.rdl_tree.specs.declared.node.Elab.{Elab};
ghost use Rattle.rdl_values.specs.Instances.{Instance, children};
ghost use Rattle.rdl_values.specs.Lineages.{lineages_of};
ghost use Rattle.rdl_values.specs.Uses.{values};
ghost use Rattle.rdl_values.specs.Values.{Around};
ghost use Rattle.rdl_failures.specs.Shown.{IsShown};
ghost use Rattle.rdl_node_lists.specs.Keys.{numbers};
ghost use Rattle.rdl_targets.specs.At.{AreAt};
ghost use Rattle.rdl_targets.specs.Contents.{AreContents, passes};
ghost use Rattle.rdl_targets.specs.Steps.{AreNumbers, Wants};

use crate::contents::Contents;
use rb_base::NoMemory;
use rdl_failures::number_seen;
use rdl_node_lists::Held;
use rdl_tree::Expr;
use rdl_values::Chain;
use std::alloc::Global;

/// The indices that a step wants.
#[derive(Drop)]
pub(crate) enum Wanted {
    /// Whichever.
    Any,
    /// None, since one that is given has no value.
    None,
    /// These.
    These(Vec<u64>),
}

// The numbers of some expressions, if each has one.
fn numbers_of<'a>(
    alloc: Global,
    list: &[Expr<'a>],
    visible: &Chain<'_, '_, '_, 'a>,
) -> Result<Option<Vec<u64>>, NoMemory>
    ensures { IfOk result (λ r. (env : Around) → IsShown visible.now env → AreNumbers r (values env list.now)) }
{
    let mut numbers = Vec::new(alloc);
    for expr in list {
        let Ok(number) = number_seen(expr, visible) else {
            return Ok(None);
        };
        numbers.push(number)?;
    }
    Ok(Some(numbers))
}

/// The indices that a step wants: all of an element's, or none, which is every element.
pub(crate) fn indices_of<'a>(
    alloc: Global,
    index: &[Expr<'a>],
    visible: &Chain<'_, '_, '_, 'a>,
) -> Result<Wanted, NoMemory>
    ensures { IfOk result (λ r. (env : Around) → IsShown visible.now env → Wants r env index.now) }
{
    if index.is_empty() {
        return Ok(Wanted::Any);
    }
    match numbers_of(alloc, index, visible)? {
        Some(numbers) => Ok(Wanted::These(numbers)),
        None => Ok(Wanted::None),
    }
}

// Puts the numbers of nodes behind others.
fn add_all(list: &mut Vec<u32>, nodes: &[Held<'_>]) -> Result<(), NoMemory>
    ensures { OnOk result (list.new.items ≡ list.old.items ++ numbers nodes.now) }
{
    for one in nodes {
        list.push(one.node.id)?;
    }
    Ok(())
}

/// The nodes in the bodies of some that have a name and the indices that are wanted.
pub(crate) fn matching(
    alloc: Global,
    contents: &Contents<'_>,
    nodes: &[u32],
    name: &[u8],
    wanted: &Wanted,
) -> Result<Vec<u32>, NoMemory>
    ensures { IfOk result (λ r. (e : Elab) (ns : List Instance) → AreContents e contents.now → AreAt (lineages_of e) nodes.now ns → AreAt (lineages_of e) r.items (filter (passes wanted.now name.now) (flat_map children ns))) }
{
    let mut list = Vec::new(alloc);
    for node in nodes {
        add_all(&mut list, contents.all(*node, name, wanted))?;
    }
    Ok(list)
}
