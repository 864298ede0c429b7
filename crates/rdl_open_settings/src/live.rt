//! Further bodies of a text of which one was judged.

ghost use Rattle.std.specs.Prelude.{◌≡◌, ◌∷◌, IfOk, OnOk, false};
ghost use Rattle.rdl_values.specs.Bodies.{Body as BodyOf, around};
ghost use Rattle.rdl_failures.specs.Noted.{Holds, with_all};
ghost use Rattle.rdl_failures.specs.Shown.{IsShown};
ghost use Rattle.rdl_bodies.specs.Sited.{IsOpenAs};
ghost use Rattle.rdl_layers.specs.Phase4.{of_enums};
ghost use Rattle.rdl_open_settings.specs.Layered.{AreLocals, CanRead, IsLayersOf, of_kind, of_layers};
ghost use Rattle.rdl_open_settings.specs.Texts.{AreThinnedLocals, IsJudged, IsLiveOf};

use crate::layers::{Layers, enums_of};
use bumpalo::Bump;
use rb_base::NoMemory;
use rdl_assignments::{
    LiveSet, TextView, ValidAssignment, entries_vary, judge_live_defaults, judge_live_locals,
    live_defaults, live_locals,
};
use rdl_bodies::{Bodies, Body};
use rdl_dynamic::Written;
use rdl_failures::Failures;
use rdl_tree::Kind;
use rdl_values::Chain;
use std::alloc::Global;
use std::rc::Rc;

/// What is judged in each body of a text: settings to its node, defaults, and the assignments to entries of enumerations if any of
/// these names something. All else fails alike in all bodies.
#[derive(Drop)]
pub(crate) struct LiveText<'a> {
    pub locals: Vec<LiveSet<'a>>,
    pub defaults: Vec<LiveSet<'a>>,
    pub entries_vary: bool,
}

// What is visible in a body.
fn visible_in<'b, 's, 'a>(bodies: &'b Bodies<'s, 'a>, body: &Body<'s, 'a>) -> Chain<'b, 'b, 's, 'a>
    ensures { (b : BodyOf) → IsOpenAs bodies.now body.now b → IsShown result (b.names ∷ around b.outer) }
{
    Chain {
        nearest: None,
        tables: bodies.tables(),
        numbers: body.numbers,
    }
}

impl<'a> LiveText<'a> {
    ghost use Rattle.std.specs.Prelude.{IfOk};
    ghost use Rattle.rdl_open_settings.specs.Layered.{CanRead};
    ghost use Rattle.rdl_open_settings.specs.Texts.{IsLiveOf};

    /// That of the text of a body.
    pub(crate) fn of<'s>(
        alloc: Global,
        bodies: &Bodies<'s, 'a>,
        body: &Body<'s, 'a>,
    ) -> Result<Self, NoMemory>
        requires some { CanRead bodies.now body.now }
        ensures { IfOk result (IsLiveOf bodies.now body.now.text) }
    {
        let visible = visible_in(bodies, body);
        let text = TextView {
            visible: &visible,
            same_enums: bodies.are_steady(body.numbers),
        };
        let locals = live_locals(alloc, body.items, &text)?;
        let defaults = live_defaults(alloc, body.items, &text)?;
        Ok(LiveText {
            locals,
            defaults,
            entries_vary: entries_vary(body.items, &text),
        })
    }
}

// The live assignments of a body to its nodes, of which the root has none.
fn locals_of<'a>(
    alloc: Global,
    live: &[LiveSet<'a>],
    kind: Option<Kind>,
    visible: &Chain<'_, '_, '_, 'a>,
    failures: &mut Failures,
) -> Result<Vec<ValidAssignment<'a>>, NoMemory>
    ensures noted { OnOk result ((b : BodyOf) → b.kind ≡ kind → IsShown visible.now (b.names ∷ around b.outer) → AreThinnedLocals kind failures.old b live.now → failures.new ≡ with_all (of_kind kind b) failures.old) }
    ensures given { IfOk result (λ r. (b : BodyOf) → b.kind ≡ kind → IsShown visible.now (b.names ∷ around b.outer) → AreThinnedLocals kind failures.old b live.now → AreLocals kind r.items b) }
{
    match kind {
        Some(kind) => judge_live_locals(alloc, live, kind, 0, visible, failures),
        None => Ok(Vec::new(alloc)),
    }
}

// The assignments to the entries of a body's enumerations, if they may fail otherwise than in another body.
fn varying_enums<'a>(
    alloc: Global,
    arena: &'a Bump,
    bodies: &Bodies<'_, 'a>,
    body: &Body<'_, 'a>,
    vary: bool,
    failures: &mut Failures,
) -> Result<(), NoMemory>
    requires some { CanRead bodies.now body.now }
    ensures { OnOk result ((b : BodyOf) → IsOpenAs bodies.now body.now b → (vary ≡ false → Holds failures.old (of_enums b)) → failures.new ≡ with_all (of_enums b) failures.old) }
{
    if !vary {
        return Ok(());
    }
    enums_of(alloc, arena, bodies, body, failures)
}

/// The same as `layers_of` for a further body of a text, of which one of this kind was judged.
pub(crate) fn further_layers<'a>(
    alloc: Global,
    arena: &'a Bump,
    bodies: &Bodies<'_, 'a>,
    body: &Body<'_, 'a>,
    live: &LiveText<'a>,
    dynamics: Rc<Vec<Written<'a>>>,
    failures: &mut Failures,
) -> Result<Layers<'a>, NoMemory>
    requires some { CanRead bodies.now body.now }
    requires live { IsLiveOf bodies.now body.now.text live.now }
    requires judged { IsJudged bodies.now failures.old body.now.text body.now.kind dynamics.value.items }
    ensures noted { OnOk result ((b : BodyOf) → IsOpenAs bodies.now body.now b → failures.new ≡ with_all (of_layers b) failures.old) }
    ensures given { IfOk result (λ r. (b : BodyOf) → IsOpenAs bodies.now body.now b → IsLayersOf r b) }
{
    let visible = visible_in(bodies, body);
    let locals = locals_of(alloc, &live.locals, body.kind, &visible, failures)?;
    let defaults = judge_live_defaults(alloc, &live.defaults, 0, &visible, failures)?;
    varying_enums(alloc, arena, bodies, body, live.entries_vary, failures)?;
    Ok(Layers {
        locals,
        defaults,
        dynamics,
    })
}
