//! Which extents clash.

ghost use Rattle.std.specs.Prelude.{◌≡◌, ◌+◌, ◌<◌, ◌^◌, IfOk};
ghost use Rattle.std.specs.List.{All};
ghost use Rattle.rdl_layout.specs.Claims.{IsFit, clashing_claims};

use crate::extent::Extent;
use crate::ground::Ground;
use rb_base::{NoMemory, Place};
use rdl_base::{Fault, Rule};
use std::alloc::Global;

/// An extent, and the place of what has it in the source.
#[derive(Clone, Copy, Debug, PartialEq, Eq)]
pub struct Claim {
    pub place: Place,
    pub extent: Extent,
}

/// The failures of the rule at the places of the extents that clash with one before them. The only error is want of memory.
///
/// Takes time in proportion to the number of positions of all extents, and its logarithm, however many extents have one
/// position.
pub fn clashing(alloc: Global, rule: Rule, claims: &[Claim]) -> Result<Vec<Fault>, NoMemory>
    requires { All IsFit claims.now }
    ensures { IfOk result (λ fs. fs.items ≡ clashing_claims rule claims.now) }
{
    let mut ground = Ground::new(alloc);
    let mut faults = Vec::new(alloc);
    for claim in claims {
        if ground.bars(&claim.extent) {
            faults.push(Fault {
                place: claim.place,
                rule,
            })?;
        }
        ground.add(&claim.extent)?;
    }
    Ok(faults)
}
