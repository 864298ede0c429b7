//! Things that wait for others.

ghost use Rattle.std.specs.Prelude.{◌≡◌, ◌<◌, length, slice_index_or, slice_set};

use rb_base::NoMemory;
use std::alloc::Global;

/// For each of some things the others that wait for it, in a queue. Each thing stands in one queue at most, and leads to the
/// one behind it, the last one to the first.
#[derive(Drop)]
pub(crate) struct Waiting {
    /// For each thing how many wait for it.
    pub counts: Vec<u32>,
    /// For each thing for which others wait the last of them.
    pub lasts: Vec<u32>,
    /// For each thing that waits the one behind it.
    pub nexts: Vec<u32>,
}

/// Puts a thing behind the last one of a ring, which leads to its first, or makes a ring of it where nothing waits yet.
fn link(nexts: &mut Vec<u32>, count: u32, last: u32, thing: u32)
    requires last { (count ≡ 0 → ⊥) → last < length nexts.old.items }
    requires thing { thing < length nexts.old.items }
    ensures alone { count ≡ 0 → nexts.new.items ≡ slice_set nexts.old.items thing thing }
    ensures last { (count ≡ 0 → ⊥) → nexts.new.items ≡ slice_set (slice_set nexts.old.items thing (slice_index_or nexts.old.items last 0)) last thing }
{
    if count == 0 {
        nexts[thing as usize] = thing;
    } else {
        nexts[thing as usize] = nexts[last as usize];
        nexts[last as usize] = thing;
    }
}

impl Waiting {
    ghost use Rattle.std.specs.Prelude.{◌≡◌, ◌<◌, ◌^◌, ℕ, [], List, Some, IfOk, length, slice_get};
    ghost use Rattle.topological_order.specs.Waiting.{AreRings, IsFree, StandsAt, popped, pushed};

    /// Nothing waits.
    pub fn new(alloc: Global, count: usize) -> Result<Waiting, NoMemory>
        ensures rings { IfOk result (λ w. AreRings w (λ _. [])) }
        ensures count { IfOk result (λ w. length w.nexts.items ≡ count) }
    {
        Ok(Waiting {
            counts: vec![in alloc; 0; count]?,
            lasts: vec![in alloc; 0; count]?,
            nexts: vec![in alloc; 0; count]?,
        })
    }

    /// Puts a thing that waits for none behind those that wait for another.
    pub fn push(&mut self, to: u32, thing: u32)
        requires few { length self.old.nexts.items < 2 ^ 32 }
        requires rings { (queue : ℕ → List ℕ) × AreRings self.old queue × IsFree queue thing }
        requires to { to < length self.old.nexts.items }
        requires thing { thing < length self.old.nexts.items }
        ensures count { length self.new.nexts.items ≡ length self.old.nexts.items }
        ensures rings { (queue : ℕ → List ℕ) → AreRings self.old queue → IsFree queue thing → AreRings self.new (pushed queue to thing) }
    {
        let count = self.counts[to as usize];
        link(&mut self.nexts, count, self.lasts[to as usize], thing);
        self.lasts[to as usize] = thing;
        self.counts[to as usize] = count + 1;
    }

    /// Takes the first of those that wait for a thing.
    pub fn pop(&mut self, of: u32) -> u32
        requires { (queue : ℕ → List ℕ) × AreRings self.old queue × (0 < length (queue of)) }
        ensures count { length self.new.nexts.items ≡ length self.old.nexts.items }
        ensures rings { (queue : ℕ → List ℕ) → AreRings self.old queue → AreRings self.new (popped queue of) }
        ensures first { (queue : ℕ → List ℕ) → AreRings self.old queue → StandsAt queue of 0 result }
    {
        let last = self.lasts[of as usize] as usize;
        let first = self.nexts[last];
        self.nexts[last] = self.nexts[first as usize];
        self.counts[of as usize] -= 1;
        first
    }
}
