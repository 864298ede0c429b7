//! The body of the root.

ghost use Rattle.std.specs.Prelude.{◌≡◌, IfOk};
ghost use Rattle.rdl_tree.specs.InOrder.{IsInOrder};
ghost use Rattle.rdl_tree.specs.declared.item.Source.{Source as AnySource};
ghost use Rattle.rdl_values.specs.Top.{root};
ghost use Rattle.rdl_bodies.specs.Opened.{IsRootOpen};

use crate::bodies::Bodies;
use crate::hints::Hints;
use crate::opening::BodyText;
use bumpalo::Bump;
use rb_base::NoMemory;
use rdl_failures::Failures;
use rdl_tree::Item;
use rdl_values::Defaults;
use std::alloc::Global;
use std::collections::BTreeMap;
use std::rc::Rc;

/// The root's body alone, which has the number 0. Lists of numbers of bodies stand in the arena `scratch`. The failures of its names are put
/// in: E2, and those of its enumerations.
pub fn open_root<'s, 'a>(
    alloc: Global,
    scratch: &'s Bump,
    arena: &'a Bump,
    items: &'a [Item<'a>],
    failures: &mut Failures,
) -> Result<Bodies<'s, 'a>, NoMemory>
    requires { IsInOrder items.now }
    ensures { IfOk result (λ t. (s : AnySource) → s.items.now ≡ items.now → IsRootOpen t failures.old failures.new (root s)) }
{
    let mut bodies = Bodies {
        scratch,
        tables: Vec::new(alloc),
        components: Vec::new(alloc),
        list: Vec::new(alloc),
        sites: Vec::new(alloc),
        texts: Vec::new(alloc),
        plain: Hints::new(alloc),
        known: BTreeMap::new(alloc),
        opened: Vec::new(alloc),
        text_numbers: Hints::new(alloc),
    };
    let text = BodyText {
        site: None,
        items,
        kind: None,
        outer: &[],
        uptos: &[],
        params: &[],
        touched: &[],
    };
    let defaults = Rc::new(alloc, Defaults::of(alloc, &[])?)?;
    bodies.add(alloc, arena, None, &text, &defaults, failures)?;
    Ok(bodies)
}
