//! The top as a use of its definition.

ghost use Rattle.std.specs.Prelude.{◌≡◌, [], Option, List, ℕ, Some, IfOk};
ghost use Rattle.rdl_tree.specs.declared.item.Source.{Source};
ghost use Rattle.rdl_values.specs.Bodies.{Closure, around};
ghost use Rattle.rdl_values.specs.Chained.{chained};
ghost use Rattle.rdl_values.specs.Top.{top_use_of};
ghost use Rattle.rdl_values.specs.Uses.{Use};
ghost use Rattle.rdl_failures.specs.Shown.{IsAlike};
ghost use Rattle.rdl_top.specs.Topped.{Means};
ghost use Rattle.rdl_bodies.specs.Kept.{AreKept};
ghost use Rattle.rdl_elab.specs.Topped.{CanListTop, IsRootAt, IsTopBound, IsTopListed};

use crate::surveyed::TopSite;
use bumpalo::Bump;
use rb_base::NoMemory;
use rdl_base::Rule;
use rdl_bodies::Bodies;
use rdl_failures::Failures;
use rdl_top::Top;
use rdl_tree::Arg;
use rdl_uses::judge_values;
use rdl_values::{Chain, Defaults, Parameters};
use std::alloc::Global;
use std::rc::Rc;

/// The most parameters of a definition that is used (rule E7).
const MOST_PARAMETERS: usize = 64;

// No arguments.
fn no_arguments<'a>() -> &'a [Arg<'a>]
    ensures { result.now ≡ [] }
{
    &[]
}

// The values of the top's parameters, which have no arguments, if each has one. Their failures are put in, and E7.
fn bind_top<'a>(
    alloc: Global,
    bodies: &Bodies<'_, 'a>,
    numbers: &[usize],
    top: &Top<'a>,
    failures: &mut Failures,
) -> Result<Option<Parameters<'a>>, NoMemory>
    ensures { IfOk result (λ r. (u : Use) (c : Closure) → u.args ≡ [] → u.type_place ≡ top.now.name.place → c.def ≡ top.now.def.now → IsAlike (chained bodies.now.tables.items numbers.now) (around u.scope) → IsAlike (chained bodies.now.tables.items numbers.now) (around c.scope)
        → IsTopBound u c r failures.old failures.new) }
{
    let none = no_arguments();
    let visible = Chain {
        nearest: None,
        tables: bodies.tables(),
        numbers,
    };
    let def = top.def;
    let defaults = Rc::new(alloc, Defaults::of(alloc, def.params)?)?;
    let values = judge_values(
        alloc,
        def,
        &defaults,
        none,
        top.name.place,
        &visible,
        numbers,
        failures,
    )?;
    failures.note(def.params.len() > MOST_PARAMETERS, Rule::E7, def.place)?;
    Ok(values.parameters)
}

/// The site of the top, if it gives a node. All failures of its use are put in.
pub(crate) fn list_top<'a>(
    alloc: Global,
    arena: &'a Bump,
    bodies: &mut Bodies<'_, 'a>,
    top: &Top<'a>,
    failures: &mut Failures,
) -> Result<Option<TopSite<'a>>, NoMemory>
    requires kept { AreKept bodies.old failures.old }
    requires some { CanListTop bodies.old top.now }
    ensures { IfOk result (λ r. (w : Option (List ℕ)) (s : Source) → IsRootAt bodies.old s → Means s s.items.now (Some top.now) (top_use_of w s) → IsTopListed bodies.old bodies.new failures.old failures.new r w s) }
{
    let Some(root) = bodies.body(0) else {
        return Ok(None);
    };
    let Some(parameters) = bind_top(alloc, bodies, root.numbers, top, failures)? else {
        return Ok(None);
    };
    let uptos = [top.position];
    let touched = parameters.touched();
    let site = bodies.list(alloc, arena, top.def, root.numbers, &uptos, touched)?;
    Ok(Some(TopSite {
        site,
        name: top.name,
    }))
}

/// The site of the top, if there is one and it gives a node. All failures of its use are put in.
pub(crate) fn list_found<'a>(
    alloc: Global,
    arena: &'a Bump,
    bodies: &mut Bodies<'_, 'a>,
    top: &Option<Top<'a>>,
    failures: &mut Failures,
) -> Result<Option<TopSite<'a>>, NoMemory>
    requires kept { AreKept bodies.old failures.old }
    requires some { (w : Option (List ℕ)) × (s : Source) × IsRootAt bodies.old s × Means s s.items.now top.now (top_use_of w s) }
    ensures { IfOk result (λ r. (w : Option (List ℕ)) (s : Source) → IsRootAt bodies.old s → Means s s.items.now top.now (top_use_of w s) → IsTopListed bodies.old bodies.new failures.old failures.new r w s) }
{
    match top {
        Some(top) => list_top(alloc, arena, bodies, top, failures),
        None => Ok(None),
    }
}
