//! The assignment that decides a property.
ghost use Rattle.std.specs.Prelude.{◌≡◌, position};
ghost use Rattle.rdl_layers.specs.Ranks.{decides};

use crate::rank::Rank;
use crate::related::is_related;
use rdl_props::Prop;

/// An assignment that applies to a node, as far as it matters which one decides: its property, and its rank.
#[derive(Clone, Copy, Debug, PartialEq, Eq)]
pub struct Candidate {
    pub prop: Prop,
    pub rank: Rank,
}

/// The position of the candidate that decides the property: the first one of least rank among those of the property and
/// of those that exclude it (SystemRDL 2.0, 5.1.3). None exactly where there is no such candidate. It takes no memory, and
/// looks at each candidate once.
pub fn deciding(prop: Prop, candidates: &[Candidate]) -> Option<usize>
    ensures { result ≡ position (decides prop candidates.now) candidates.now }
{
    let mut best: Option<(usize, Rank)> = None;
    for (at, candidate) in candidates.iter().enumerate() {
        if is_related(prop, candidate.prop) {
            best = match best {
                Some((_, rank)) if !candidate.rank.is_before(rank) => best,
                _ => Some((at, candidate.rank)),
            };
        }
    }
    let (at, _) = best?;
    Some(at)
}
