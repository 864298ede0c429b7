//! The assignments of one body.

ghost use Rattle.std.specs.Prelude.{◌≡◌, ◌∷◌, IfOk, OnOk, drop, slice_get};
ghost use Rattle.rdl_values.specs.Bodies.{Body as BodyOf, around};
ghost use Rattle.rdl_failures.specs.Noted.{with_all};
ghost use Rattle.rdl_failures.specs.Shown.{IsShown};
ghost use Rattle.rdl_bodies.specs.Sited.{IsOpenAs};
ghost use Rattle.rdl_layers.specs.Phase4.{of_enums};
ghost use Rattle.rdl_open_settings.specs.Layered.{AreLocals, CanRead, IsLayersOf, of_kind, of_layers};

use bumpalo::Bump;
use rb_base::NoMemory;
use rdl_assignments::{Defaults, ValidAssignment, judge_defaults, judge_enums, judge_locals};
use rdl_bodies::{Bodies, Body, all_values, table_of};
use rdl_dynamic::{Written, written_among};
use rdl_failures::Failures;
use rdl_scopes::Outer;
use rdl_tree::{Item, Kind};
use rdl_values::Chain;
use std::alloc::Global;
use std::rc::Rc;

/// What the assignments of a body give that fail no rule: those to its nodes, in text order, and its defaults. Beside them the dynamic
/// assignments among its items, as they are written, which all bodies of a text share.
#[derive(Drop)]
pub struct Layers<'a> {
    pub locals: Vec<ValidAssignment<'a>>,
    pub defaults: Defaults<'a>,
    pub(crate) dynamics: Rc<Vec<Written<'a>>>,
}

impl<'a> Layers<'a> {
    ghost use Rattle.std.specs.Prelude.{◌≡◌};

    /// The dynamic assignments, in text order.
    pub fn dynamics(&self) -> &[Written<'a>]
        ensures { result.now ≡ self.now.dynamics.value.items }
    {
        let list = &*self.dynamics;
        list.as_slice()
    }
}

// The assignments of a body to its nodes, of which the root has none.
fn locals_of<'a>(
    alloc: Global,
    items: &'a [Item<'a>],
    kind: Option<Kind>,
    visible: &Chain<'_, '_, '_, 'a>,
    failures: &mut Failures,
) -> Result<Vec<ValidAssignment<'a>>, NoMemory>
    ensures noted { OnOk result ((b : BodyOf) → b.items ≡ items.now → b.kind ≡ kind → IsShown visible.now (b.names ∷ around b.outer) → failures.new ≡ with_all (of_kind kind b) failures.old) }
    ensures given { IfOk result (λ r. (b : BodyOf) → b.items ≡ items.now → b.kind ≡ kind → IsShown visible.now (b.names ∷ around b.outer) → AreLocals kind r.items b) }
{
    match kind {
        Some(kind) => judge_locals(alloc, items, kind, 0, visible, failures),
        None => Ok(Vec::new(alloc)),
    }
}

// The first of some numbers.
fn first_of(numbers: &[usize]) -> Option<usize>
    ensures { result ≡ slice_get numbers.now 0 }
{
    numbers.first().copied()
}

// Those behind the first.
fn rest_of<'n>(numbers: &'n [usize]) -> &'n [usize]
    ensures { result.now ≡ drop 1 numbers.now }
{
    if 1 <= numbers.len() {
        &numbers[1..]
    } else {
        &[]
    }
}

/// Puts in the failures of the assignments to the entries of a body's enumerations.
pub(crate) fn enums_of<'a>(
    alloc: Global,
    arena: &'a Bump,
    bodies: &Bodies<'_, 'a>,
    body: &Body<'_, 'a>,
    failures: &mut Failures,
) -> Result<(), NoMemory>
    requires some { CanRead bodies.now body.now }
    ensures { OnOk result ((b : BodyOf) → IsOpenAs bodies.now body.now b → failures.new ≡ with_all (of_enums b) failures.old) }
{
    let Some(first) = first_of(body.numbers) else {
        return Ok(());
    };
    let Some(own) = bodies.body(first) else {
        return Ok(());
    };
    let bound = all_values(alloc, own.params, own.touched)?;
    let table = table_of(alloc, &bound)?;
    let outer = Outer {
        tables: bodies.tables(),
        numbers: rest_of(body.numbers),
    };
    judge_enums(alloc, arena, table, body.items, &outer, failures)?;
    Ok(())
}

/// Puts in all failures of the assignments of a body to its nodes, of its defaults and of its enumerations' entries, and gives those to
/// nodes and by default that fail none, and its dynamic ones.
pub(crate) fn layers_of<'a>(
    alloc: Global,
    arena: &'a Bump,
    bodies: &Bodies<'_, 'a>,
    body: &Body<'_, 'a>,
    failures: &mut Failures,
) -> Result<Layers<'a>, NoMemory>
    requires some { CanRead bodies.now body.now }
    ensures noted { OnOk result ((b : BodyOf) → IsOpenAs bodies.now body.now b → failures.new ≡ with_all (of_layers b) failures.old) }
    ensures given { IfOk result (λ r. (b : BodyOf) → IsOpenAs bodies.now body.now b → IsLayersOf r b) }
{
    let visible = Chain {
        nearest: None,
        tables: bodies.tables(),
        numbers: body.numbers,
    };
    let locals = locals_of(alloc, body.items, body.kind, &visible, failures)?;
    let defaults = judge_defaults(alloc, body.items, 0, &visible, failures)?;
    enums_of(alloc, arena, bodies, body, failures)?;
    let written = written_among(alloc, body.items)?;
    let dynamics = Rc::new(alloc, written)?;
    Ok(Layers {
        locals,
        defaults,
        dynamics,
    })
}
