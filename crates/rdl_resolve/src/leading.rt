//! The node that a reference leads to.

ghost use Rattle.std.specs.Prelude.{IfOk};
ghost use Rattle.rdl_tree.specs.declared.node.Elab.{Elab as AnyElab};
ghost use Rattle.rdl_values.specs.Bodies.{Scope};
ghost use Rattle.rdl_values.specs.Elaboration.{IsClean};
ghost use Rattle.rdl_values.specs.Lineages.{lineages_of};
ghost use Rattle.rdl_refs.specs.Leads.{led_to};
ghost use Rattle.rdl_members.specs.Found.{AreMembersOf};
ghost use Rattle.rdl_resolve.specs.Led.{IsLed};
ghost use Rattle.rdl_resolve.specs.Outward.{IsSeen};

use crate::depth::depth_of;
use crate::search::nearest;
use crate::walk::{led_on, step_to};
use rb_base::NoMemory;
use rdl_members::Members;
use rdl_tree::{Env, Path};
use rdl_values::Chain;
use std::alloc::Global;

/// Where a reference stands: the number of the body, the bodies that it sees, what is visible in them, and for each node the number of the body next round its
/// definition's text. The root's number is the count of nodes.
#[derive(Clone, Copy)]
pub struct Viewpoint<'t, 'a> {
    pub body: u32,
    pub env: &'a Env<'a>,
    pub visible: Chain<'t, 't, 't, 'a>,
    pub outers: &'t [u32],
    pub root: u32,
}

/// The node that a reference leads to, if it leads to one: of the bodies round its text the nearest that has an instance of the first
/// name is meant. The only error is want of memory, or a number of bodies that no memory holds.
pub fn lead<'a>(
    alloc: Global,
    members: &Members<'_>,
    from: Viewpoint<'_, 'a>,
    path: &Path<'a>,
) -> Result<Option<u32>, NoMemory>
    ensures { IfOk result (λ r. (e : AnyElab) (scope : Scope) → IsClean e → AreMembersOf e members.now → IsSeen e from.entry scope → IsLed e r (led_to (lineages_of e) path.now scope)) }
{
    let [first, rest @ ..] = path.steps else {
        return Ok(None);
    };
    let Some(bodies) = depth_of(from.env) else {
        return Err(NoMemory);
    };
    let Some(body) = nearest(
        members,
        from.outers,
        from.root,
        first.name.text,
        from.body,
        bodies,
    ) else {
        return Ok(None);
    };
    let found = step_to(alloc, members, body, first, &from.visible)?;
    led_on(alloc, members, found, rest, &from.visible)
}
