//! What is known of the texts of bodies that were judged.

use crate::layers::{Layers, layers_of};
use crate::live::{LiveText, further_layers};
use bumpalo::Bump;
use indexmap::IndexMap;
use rb_base::NoMemory;
use rdl_bodies::{Bodies, Body};
use rdl_dynamic::Written;
use rdl_failures::Failures;
use rdl_tree::Kind;
use std::alloc::Global;
use std::rc::Rc;

/// A text of which a body was judged: the kind of the body, and the dynamic assignments of all bodies of the text.
#[derive(Drop)]
pub(crate) struct JudgedText<'a> {
    pub kind: Option<Kind>,
    pub dynamics: Rc<Vec<Written<'a>>>,
}

/// The texts of which bodies were judged, by their numbers, and what is live in those of which further ones were.
#[derive(Drop)]
pub(crate) struct JudgedTexts<'a> {
    known: IndexMap<usize, JudgedText<'a>>,
    live: IndexMap<usize, LiveText<'a>>,
}

impl<'a> JudgedText<'a> {
    ghost use Rattle.std.specs.Prelude.{◌≡◌, true};

    // Whether the body that was judged is of this kind.
    fn is_of(&self, kind: Option<Kind>) -> bool
        ensures { result ≡ true → self.now.kind ≡ kind }
    {
        self.kind == kind
    }
}

impl<'a> JudgedTexts<'a> {
    ghost use Rattle.std.specs.Prelude.{◌≡◌, List, IfOk, IfSome, OnOk};
    ghost use Rattle.rdl_base.specs.declared.fault.Fault.{Fault};
    ghost use Rattle.rdl_values.specs.Bodies.{Body as BodyOf};
    ghost use Rattle.rdl_failures.specs.Noted.{with_all};
    ghost use Rattle.rdl_bodies.specs.Sited.{IsOpenAs};
    ghost use Rattle.rdl_bodies.specs.declared.bodies.Bodies.{Bodies as AnyBodies};
    ghost use Rattle.rdl_open_settings.specs.Layered.{CanRead, IsLayersOf, of_layers};
    ghost use Rattle.rdl_open_settings.specs.Texts.{AreShared, AreTexts};

    /// None yet.
    pub(crate) fn new(alloc: Global) -> Self
        ensures { (t : AnyBodies) (held : List Fault) → AreTexts t held result }
    {
        JudgedTexts {
            known: IndexMap::new(alloc),
            live: IndexMap::new(alloc),
        }
    }

    // The dynamic assignments of a text, if a body of this kind was judged.
    fn dynamics_of(
        &self,
        text: usize,
        kind: Option<Kind>,
    ) -> Result<Option<Rc<Vec<Written<'a>>>>, NoMemory>
        ensures { IfOk result (λ r. IfSome r (λ d. AreShared self.now text kind d.value.items)) }
    {
        match self.known.get(&text) {
            Some(known) if known.is_of(kind) => Ok(Some(known.dynamics.clone()?)),
            _ => Ok(None),
        }
    }

    // Finds out what is live in the text of a body, if that isn't known.
    fn note_live(
        &mut self,
        alloc: Global,
        bodies: &Bodies<'_, 'a>,
        body: &Body<'_, 'a>,
    ) -> Result<(), NoMemory>
        requires some { CanRead bodies.now body.now }
        ensures known { self.new.known ≡ self.old.known }
        ensures live { OnOk result ((held : List Fault) → AreTexts bodies.now held self.old → AreTexts bodies.now held self.new) }
    {
        if self.live.get(&body.text).is_some() {
            return Ok(());
        }
        self.live
            .insert(body.text, LiveText::of(alloc, bodies, body)?)?;
        Ok(())
    }

    // Judges the first body of a text.
    fn judge_first(
        &mut self,
        alloc: Global,
        arena: &'a Bump,
        bodies: &Bodies<'_, 'a>,
        body: &Body<'_, 'a>,
        failures: &mut Failures,
    ) -> Result<Layers<'a>, NoMemory>
        requires kept { AreTexts bodies.now failures.old self.old }
        requires some { CanRead bodies.now body.now }
        ensures texts { OnOk result (AreTexts bodies.now failures.new self.new) }
        ensures noted { OnOk result ((b : BodyOf) → IsOpenAs bodies.now body.now b → failures.new ≡ with_all (of_layers b) failures.old) }
        ensures given { IfOk result (λ r. (b : BodyOf) → IsOpenAs bodies.now body.now b → IsLayersOf r b) }
    {
        let layers = layers_of(alloc, arena, bodies, body, failures)?;
        let dynamics = layers.dynamics.clone()?;
        self.known.insert(
            body.text,
            JudgedText {
                kind: body.kind,
                dynamics,
            },
        )?;
        Ok(layers)
    }

    /// Puts in all failures of the assignments of a body, and gives what those give that fail none. What fails alike in all bodies of its text
    /// is judged with the first of them.
    pub(crate) fn judge(
        &mut self,
        alloc: Global,
        arena: &'a Bump,
        bodies: &Bodies<'_, 'a>,
        body: &Body<'_, 'a>,
        failures: &mut Failures,
    ) -> Result<Layers<'a>, NoMemory>
        requires kept { AreTexts bodies.now failures.old self.old }
        requires some { CanRead bodies.now body.now }
        ensures texts { OnOk result (AreTexts bodies.now failures.new self.new) }
        ensures noted { OnOk result ((b : BodyOf) → IsOpenAs bodies.now body.now b → failures.new ≡ with_all (of_layers b) failures.old) }
        ensures given { IfOk result (λ r. (b : BodyOf) → IsOpenAs bodies.now body.now b → IsLayersOf r b) }
    {
        let Some(dynamics) = self.dynamics_of(body.text, body.kind)? else {
            return self.judge_first(alloc, arena, bodies, body, failures);
        };
        self.note_live(alloc, bodies, body)?;
        match self.live.get(&body.text) {
            Some(live) => further_layers(alloc, arena, bodies, body, live, dynamics, failures),
            None => layers_of(alloc, arena, bodies, body, failures),
        }
    }
}
