//! Bodies that are judged once.

ghost use Rattle.std.specs.Prelude.{◌≡◌, []};
ghost use Rattle.rdl_walk.specs.Walking.{holder_for};

use crate::walk::{Judgement, JudgementKey, Walk};
use bumpalo::Bump;
use rb_base::NoMemory;
use rdl_bodies::push_sparing;
use rdl_children::{Child, judge_children};
use rdl_tree::Kind;
use rdl_uses::{Holder, Parent, Standing};
use std::alloc::Global;

// What holds the uses of a body.
fn holder_of(kind: Option<Kind>) -> Holder
    ensures { result ≡ holder_for kind }
{
    match kind {
        Some(kind) => Holder::Node(kind),
        None => Holder::Root,
    }
}

// No uses.
fn none<'s, 'a>() -> &'s [Child<'a>]
    ensures { result.now ≡ [] }
{
    &[]
}

impl<'s, 'n, 'a> Walk<'s, 'n, 'a> {
    ghost use Rattle.std.specs.Prelude.{◌≡◌, ◌++◌, ◌∷◌, [], ℕ, List, Some, IfOk, IfSome, OnOk, slice_get};
    ghost use Rattle.rdl_values.specs.Bodies.{Body as BodyOf};
    ghost use Rattle.rdl_values.specs.Uses.{parent_of, seen};
    ghost use Rattle.rdl_uses.specs.Placed.{IsParent};
    ghost use Rattle.rdl_bodies.specs.Sited.{IsOpenAs};
    ghost use Rattle.rdl_bodies.specs.declared.bodies.Body.{Body as OpenBody};
    ghost use Rattle.rdl_walk.specs.Walking.{AreWalking, CanAsk, IsAsked, parent_at};
    ghost use Rattle.rdl_walk.specs.declared.walk.Judgement.{Judgement as AnyJudgement};

    // The judgement of a body that stands there, if there is one.
    fn find_judged(&self, number: usize, standing: Standing) -> Option<Judgement<'s, 'a>>
        ensures { IfSome result (λ j. (k : ℕ) × (slice_get self.now.judgements.items k ≡ Some j) × (j.body ≡ number) × (j.standing ≡ standing)) }
    {
        let spot = JudgementKey {
            body: number,
            depth: standing.depth,
            prefix: standing.prefix,
        };
        let at = self.known.get(&spot).copied()?;
        match self.judgements.get(at) {
            Some(judgement)
                if judgement.body == number
                    && judgement.standing.depth == standing.depth
                    && judgement.standing.prefix == standing.prefix => { Some(*judgement) }
            _ => None,
        }
    }

    // Puts a judgement behind the others.
    fn push(&mut self, judgement: Judgement<'s, 'a>) -> Result<(), NoMemory>
        ensures bodies { self.new.bodies ≡ self.old.bodies }
        ensures failures { self.new.failures ≡ self.old.failures }
        ensures count { self.new.count ≡ self.old.count }
        ensures judgements { OnOk result (self.new.judgements.items ≡ self.old.judgements.items ++ (judgement.entry ∷ [])) }
    {
        let spot = JudgementKey {
            body: judgement.body,
            depth: judgement.standing.depth,
            prefix: judgement.standing.prefix,
        };
        let at = self.judgements.len();
        push_sparing(&mut self.judgements, judgement)?;
        self.known.insert(spot, at)?;
        Ok(())
    }

    // Judges the uses of a body.
    fn judge(
        &mut self,
        alloc: Global,
        arena: &'a Bump,
        number: usize,
        standing: Standing,
    ) -> Result<&'s [Child<'a>], NoMemory>
        requires walking { AreWalking self.old }
        requires some { CanAsk self.old.bodies number standing }
        ensures { IfOk result (λ r. (above : List BodyOf) (x : OpenBody) (b : BodyOf) → slice_get self.old.bodies.list.items number ≡ Some x → IsOpenAs self.old.bodies x b → IsParent (parent_at x.kind standing) (parent_of b) → IsAsked self.old self.new r.now (seen above b)) }
    {
        let Some(body) = self.bodies.body(number) else {
            return Ok(none());
        };
        let parent = Parent {
            holder: holder_of(body.kind),
            standing,
        };
        let children = judge_children(
            alloc,
            self.scratch,
            arena,
            &mut self.bodies,
            number,
            parent,
            &mut self.failures,
        )?;
        self.push(Judgement {
            body: number,
            standing,
            children,
        })?;
        Ok(children)
    }

    /// The uses of an open body that give nodes where it stands. All failures of its uses are put in.
    pub fn children(
        &mut self,
        alloc: Global,
        arena: &'a Bump,
        number: usize,
        standing: Standing,
    ) -> Result<&'s [Child<'a>], NoMemory>
        requires walking { AreWalking self.old }
        requires some { CanAsk self.old.bodies number standing }
        ensures { IfOk result (λ r. (above : List BodyOf) (x : OpenBody) (b : BodyOf) → slice_get self.old.bodies.list.items number ≡ Some x → IsOpenAs self.old.bodies x b → IsParent (parent_at x.kind standing) (parent_of b) → IsAsked self.old self.new r.now (seen above b)) }
    {
        match self.find_judged(number, standing) {
            Some(judgement) => Ok(judgement.children),
            None => self.judge(alloc, arena, number, standing),
        }
    }
}
