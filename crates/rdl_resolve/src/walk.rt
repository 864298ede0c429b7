//! The node that steps lead to from a body.

ghost use Rattle.std.specs.Prelude.{◌≡◌, ◌≤◌, filter, flat_map, IfOk, List};
ghost use Rattle.rdl_tree.specs.declared.node.Elab.{Elab as AnyElab};
ghost use Rattle.rdl_values.specs.Elaboration.{IsClean};
ghost use Rattle.rdl_values.specs.Lineages.{Lineage, children_in, lineages_of};
ghost use Rattle.rdl_values.specs.Values.{Around};
ghost use Rattle.rdl_failures.specs.Shown.{IsShown};
ghost use Rattle.rdl_members.specs.Found.{AreMembersOf, members_at};
ghost use Rattle.rdl_resolve.specs.Led.{IsLed, further, is_exactly};

use crate::indices::numbers_of;
use rb_base::NoMemory;
use rdl_members::Members;
use rdl_tree::Step;
use rdl_values::Chain;
use std::alloc::Global;

/// The node in a body that a step leads to, where this is visible. Its indices have their values only where some node has as many.
pub(crate) fn step_to<'a>(
    alloc: Global,
    members: &Members<'_>,
    body: u32,
    step: &Step<'a>,
    visible: &Chain<'_, '_, '_, 'a>,
) -> Result<Option<u32>, NoMemory>
    ensures { IfOk result (λ r. (e : AnyElab) (around : Around) → AreMembersOf e members.now → body ≤ e.count → IsShown visible.now around → IsLed e r (filter (is_exactly around step.now) (members_at (lineages_of e) body))) }
{
    if step.index.len() > members.most_indices() {
        return Ok(None);
    }
    match numbers_of(alloc, step.index, visible)? {
        Some(index) => Ok(members.find(body, step.name.text, &index)),
        None => Ok(None),
    }
}

/// The node that a step leads to in the body of one that was found.
fn step_on<'a>(
    alloc: Global,
    members: &Members<'_>,
    from: Option<u32>,
    step: &Step<'a>,
    visible: &Chain<'_, '_, '_, 'a>,
) -> Result<Option<u32>, NoMemory>
    ensures { IfOk result (λ r. (e : AnyElab) (around : Around) (ls : List Lineage) → IsClean e → AreMembersOf e members.now → IsShown visible.now around → IsLed e from ls → IsLed e r (filter (is_exactly around step.now) (flat_map children_in ls))) }
{
    match from {
        Some(node) => step_to(alloc, members, node, step, visible),
        None => Ok(None),
    }
}

/// The node that further steps lead to from one that was found.
pub(crate) fn led_on<'a>(
    alloc: Global,
    members: &Members<'_>,
    from: Option<u32>,
    steps: &[Step<'a>],
    visible: &Chain<'_, '_, '_, 'a>,
) -> Result<Option<u32>, NoMemory>
    ensures { IfOk result (λ r. (e : AnyElab) (around : Around) (ls : List Lineage) → IsClean e → AreMembersOf e members.now → IsShown visible.now around → IsLed e from ls → IsLed e r (further (is_exactly around) ls steps.now)) }
{
    let mut found = from;
    for step in steps {
        found = step_on(alloc, members, found, step, visible)?;
    }
    Ok(found)
}
