//! Where the instances of a body start, and where the last of them ends.

ghost use Rattle.std.specs.Prelude.{◌≡◌, ◌<◌, ◌≤◌, ◌^◌, ◌⊎◌, IfNone, IfOk, IfSome};
ghost use Rattle.std.specs.List.{All};
ghost use Rattle.rdl_layout.specs.Parts as spec;

use crate::part::{Mode, Part};
use rb_base::NoMemory;
use std::alloc::Global;

/// Where the instances of a body start, in bytes from its own start, and the greatest of their ends.
#[derive(Drop)]
pub struct Body {
    pub starts: Vec<u128>,
    pub end: u128,
}

/// Where an instance starts and ends, where the one before it ends. None where it would end at or above 2^128, or where what its
/// start is a multiple of is none.
fn start_and_end(part: &Part, mode: Mode, before: u128) -> Option<(u128, u128)>
    requires { 0 < part.now.access }
    ensures some { IfSome result (λ r. (r.0 ≡ spec.start mode before part.now) × (r.1 ≡ spec.end mode before part.now)) }
    ensures none { IfNone result ((2 ^ 128 ≤ spec.alignment mode part.now) ⊎ (2 ^ 128 ≤ spec.end mode before part.now)) }
{
    let start = part.start(mode, before)?;
    let end = start.checked_add(part.span(mode)?)?;
    Some((start, end))
}

/// Where the instances of a body start, one after the other. The only error is want of memory, or a number at or above 2^128.
pub fn lay(alloc: Global, mode: Mode, parts: &[Part]) -> Result<Body, NoMemory>
    requires { All (λ p. 0 < p.access) parts.now }
    ensures starts { IfOk result (λ b. b.starts.items ≡ spec.starts mode 0 parts.now) }
    ensures end { IfOk result (λ b. b.end ≡ spec.greatest_end mode 0 parts.now) }
{
    let mut starts = Vec::new(alloc);
    let mut before = 0;
    let mut greatest = 0;
    for part in parts {
        let Some((start, end)) = start_and_end(part, mode, before) else {
            return Err(NoMemory);
        };
        starts.push(start)?;
        greatest = greatest.max(end);
        before = end;
    }
    Ok(Body {
        starts,
        end: greatest,
    })
}
