//! What a walk keeps.

use bumpalo::Bump;
use indexmap::IndexMap;
use rdl_bodies::Bodies;
use rdl_children::Child;
use rdl_failures::Failures;
use rdl_uses::Standing;
use std::alloc::Global;

/// The most nodes that are judged (rule E9).
pub const MOST_NODES: u32 = 65_536;

/// The uses of an open body that give nodes where it stands.
#[derive(Clone, Copy)]
pub struct Judgement<'s, 'a> {
    pub body: usize,
    pub standing: Standing,
    pub children: &'s [Child<'a>],
}

/// By what a judgement is looked up: the body, how many names a path has in it, and how many bytes its text has before them.
#[derive(Clone, Copy, PartialEq, Eq, Hash)]
pub(crate) struct JudgementKey {
    pub body: usize,
    pub depth: u8,
    pub prefix: u16,
}

/// The open bodies, the failures so far, how many nodes were counted, and what was judged. A body is judged once where it stands as
/// deep, behind as long a text: all elements of an array have one body.
#[derive(Drop)]
pub struct Walk<'s, 'n, 'a> {
    pub bodies: Bodies<'n, 'a>,
    pub failures: Failures,
    /// How many nodes were counted, at most one above those that are judged.
    pub count: u32,
    /// The arena of the lists of uses, which goes with the walk.
    pub scratch: &'s Bump,
    pub(crate) judgements: Vec<Judgement<'s, 'a>>,
    // Which judgement to try.
    pub(crate) known: IndexMap<JudgementKey, usize>,
}

impl<'s, 'n, 'a> Walk<'s, 'n, 'a> {
    ghost use Rattle.std.specs.Prelude.{◌≡◌, []};
    ghost use Rattle.rdl_bodies.specs.Kept.{AreKept};
    ghost use Rattle.rdl_walk.specs.Walking.{AreWalking};

    /// A walk that has visited nothing yet, whose lists of uses stand in the arena `scratch`.
    pub fn new(alloc: Global, scratch: &'s Bump, bodies: Bodies<'n, 'a>, failures: Failures) -> Self
        requires { AreKept bodies failures }
        ensures walking { AreWalking result }
        ensures bodies { result.bodies ≡ bodies.entry }
        ensures failures { result.failures ≡ failures }
        ensures count { result.count ≡ 0 }
    {
        Walk {
            bodies,
            failures,
            count: 0,
            scratch,
            judgements: Vec::new(alloc),
            known: IndexMap::new(alloc),
        }
    }
}
