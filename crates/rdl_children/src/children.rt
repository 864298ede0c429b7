//! The uses of a body that give nodes.

ghost use Rattle.std.specs.Prelude.{◌≡◌, [], List, Some, IfOk, slice_get};
ghost use Rattle.rdl_values.specs.Bodies.{Body as BodyOf};
ghost use Rattle.rdl_values.specs.Uses.{parent_of, seen};
ghost use Rattle.rdl_uses.specs.Placed.{IsParent};
ghost use Rattle.rdl_bodies.specs.Kept.{AreKept};
ghost use Rattle.rdl_bodies.specs.Sited.{IsOpenAs};
ghost use Rattle.rdl_bodies.specs.declared.bodies.Body.{Body as OpenBody};
ghost use Rattle.rdl_children.specs.Children.{CanJudge, IsJudged};
ghost use Rattle.rdl_children.specs.ItemUses.{nearest_items};
ghost use Rattle.rdl_children.specs.Items.{CanList, Gives, Lists};

use crate::body::judge_items;
use crate::child::Child;
use crate::given::add_uses;
use crate::item::{ItemUses, Surroundings};
use bumpalo::Bump;
use bumpalo::collections::into_bump_slice;
use rb_base::NoMemory;
use rdl_bodies::{Bodies, Body};
use rdl_failures::Failures;
use rdl_uses::Parent;
use std::alloc::Global;

// Puts in all failures of the uses in a body, and gives those that give nodes, item by item.
fn judge<'a>(
    alloc: Global,
    bodies: &Bodies<'_, 'a>,
    body: &Body<'_, 'a>,
    parent: Parent,
    failures: &mut Failures,
) -> Result<Vec<ItemUses<'a>>, NoMemory>
    requires kept { AreKept bodies.now failures.old }
    requires items { nearest_items bodies.now.components.items body.now.numbers.now ≡ body.now.items.now }
    ensures { IfOk result (λ r. (above : List BodyOf) (b : BodyOf) → IsOpenAs bodies.now body.now b → IsParent parent (parent_of b) → Gives bodies.now body.now failures.old failures.new r.items (seen above b)) }
{
    let scene = Surroundings {
        components: bodies.components(),
        tables: bodies.tables(),
        numbers: body.numbers,
        outer: body.uptos,
        parent,
    };
    let items = judge_items(alloc, body.items, &scene, failures)?;
    Ok(items)
}

// No uses.
fn none<'s, 'a>() -> &'s [Child<'a>]
    ensures { result.now ≡ [] }
{
    &[]
}

// How many instances some items have.
fn count_instances(items: &[ItemUses<'_>]) -> usize {
    let mut count: usize = 0;
    for item in items {
        count = count.saturating_add(item.uses.given.len());
    }
    count
}

// The uses that give nodes, one by one.
fn list_uses<'s, 'n, 'a>(
    alloc: Global,
    scratch: &'s Bump,
    arena: &'a Bump,
    bodies: &mut Bodies<'n, 'a>,
    body: &Body<'n, 'a>,
    items: &[ItemUses<'a>],
) -> Result<&'s [Child<'a>], NoMemory>
    requires { CanList bodies.old body.now items.now }
    ensures { IfOk result (λ r. Lists bodies.old bodies.new body.now items.now r.now) }
{
    let mut list = Vec::with_capacity(scratch, count_instances(items))?;
    for item in items {
        add_uses(alloc, arena, bodies, body, item, &mut list)?;
    }
    Ok(into_bump_slice(list))
}

/// Puts in all failures of the uses in an open body that stands there, and gives those that give nodes, in the order of the text. Their
/// list stands in the arena `scratch`, what outlasts it in the other.
pub fn judge_children<'s, 'a>(
    alloc: Global,
    scratch: &'s Bump,
    arena: &'a Bump,
    bodies: &mut Bodies<'_, 'a>,
    number: usize,
    parent: Parent,
    failures: &mut Failures,
) -> Result<&'s [Child<'a>], NoMemory>
    requires kept { AreKept bodies.old failures.old }
    requires some { CanJudge bodies.old number parent }
    ensures { IfOk result (λ r. (above : List BodyOf) (x : OpenBody) (b : BodyOf) → slice_get bodies.old.list.items number ≡ Some x → IsOpenAs bodies.old x b → IsParent parent (parent_of b)
        → IsJudged bodies.old bodies.new failures.old failures.new r.now (seen above b)) }
{
    let Some(body) = bodies.body(number) else {
        return Ok(none());
    };
    let items = judge(alloc, bodies, &body, parent, failures)?;
    let children = list_uses(alloc, scratch, arena, bodies, &body, &items)?;
    Ok(children)
}
