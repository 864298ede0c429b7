//! Ranking things one after the other, each behind those that it needs.

ghost use Rattle.std.specs.Prelude.{◌≡◌, ◌≤◌, ◌<◌, ℕ, length, slice_get, Some, IfOk, IfSome, IfNone};
ghost use Rattle.topological_order.specs.Levels.{AreLevels, AreWithin};
ghost use Rattle.topological_order.specs.Ranking.{IsRanked, StopsAt};

use crate::lists::Lists;
use crate::rank::Rank;
use crate::waiting::Waiting;
use rb_base::NoMemory;
use std::alloc::Global;

/// The ranks of things, and the things in the order of their ranks.
#[derive(Drop)]
pub struct Levels {
    /// For each thing its rank, if it has one.
    pub ranks: Vec<Rank>,
    /// The things that have a rank, each at its rank.
    pub order: Vec<u32>,
}

/// Which things have a rank. Each other waits for one of those that it needs.
#[derive(Drop)]
pub(crate) struct Ranking {
    pub ranks: Vec<Rank>,
    pub order: Vec<u32>,
    /// For each thing that waits the place of the one that it waits for, among its needs.
    pub places: Vec<u32>,
    pub waiting: Waiting,
}

/// The place of the first need without a rank, from one on.
fn unranked_need(ranks: &[Rank], needs: &[u32], from: usize) -> Option<usize>
    requires { (k j : ℕ) → slice_get needs.now k ≡ Some j → j < length ranks.now }
    ensures found { IfSome result (StopsAt ranks.now needs.now from) }
    ensures none { IfNone result ((i j : ℕ) → from ≤ i → slice_get needs.now i ≡ Some j → IsRanked ranks.now j) }
{
    for place in from..needs.len() {
        if ranks[needs[place] as usize].is_none() {
            return Some(place);
        }
    }
    None
}

impl Ranking {
    ghost use Rattle.std.specs.Prelude.{◌≡◌, ◌≤◌, ◌<◌, ◌+◌, ◌^◌, ◌++◌, ◌∷◌, [], ℕ, length, slice_index_or, slice_set, Some, None, IfOk, OnOk};
    ghost use Rattle.topological_order.specs.Levels.{AreWithin, rank_at};
    ghost use Rattle.topological_order.specs.Ranking.{IsSound};
    ghost use Rattle.topological_order.specs.Waiting.{AreRings, count_of};

    /// Nothing has a rank, and nothing waits.
    fn new(alloc: Global, count: usize) -> Result<Ranking, NoMemory>
        ensures ranks { IfOk result (λ s. (i : ℕ) → rank_at s.ranks.items i ≡ None) }
        ensures ranked { IfOk result (λ s. length s.ranks.items ≡ count) }
        ensures order { IfOk result (λ s. s.order.items ≡ []) }
        ensures places { IfOk result (λ s. (i : ℕ) → slice_index_or s.places.items i 0 ≡ 0) }
        ensures placed { IfOk result (λ s. length s.places.items ≡ count) }
        ensures waiting { IfOk result (λ s. AreRings s.waiting (λ _. [])) }
        ensures waited { IfOk result (λ s. length s.waiting.nexts.items ≡ count) }
    {
        Ok(Ranking {
            ranks: vec![in alloc; Rank::none(); count]?,
            order: Vec::with_capacity(alloc, count)?,
            places: vec![in alloc; 0; count]?,
            waiting: Waiting::new(alloc, count)?,
        })
    }

    /// Gives a thing the next rank.
    fn rank(&mut self, thing: u32) -> Result<(), NoMemory>
        requires thing { thing < length self.old.ranks.items }
        requires few { length self.old.order.items + 1 < 2 ^ 32 }
        ensures ranks { OnOk result (self.new.ranks.items ≡ slice_set self.old.ranks.items thing (Some (length self.old.order.items))) }
        ensures order { OnOk result (self.new.order.items ≡ self.old.order.items ++ thing ∷ []) }
        ensures places { OnOk result (self.new.places ≡ self.old.places) }
        ensures waiting { OnOk result (self.new.waiting ≡ self.old.waiting) }
    {
        self.ranks[thing as usize] = Rank::of(self.order.len() as u32);
        self.order.push(thing)?;
        Ok(())
    }

    /// Lets a thing wait for the first of its needs without a rank, from the one on that it waited for, or gives it the next rank.
    fn advance(&mut self, needs: &Lists, thing: u32) -> Result<(), NoMemory>
        requires within { AreWithin needs.now }
        requires few { length needs.now < 2 ^ 32 }
        requires thing { thing < length needs.now }
        requires sound { (from done : ℕ) × IsSound needs.now from done (Some thing) self.old }
        ensures sound { OnOk result ((from done : ℕ) → IsSound needs.now from done (Some thing) self.old → done ≤ length self.old.order.items → IsSound needs.now from done None self.new) }
        ensures kept { OnOk result ((i r : ℕ) → rank_at self.old.ranks.items i ≡ Some r → (rank_at self.new.ranks.items i ≡ Some r) × (count_of self.new.waiting i ≡ count_of self.old.waiting i)) }
    {
        let list = needs.get(thing as usize);
        let from = self.places[thing as usize] as usize;
        match unranked_need(&self.ranks, list, from) {
            None => self.rank(thing),
            Some(place) => {
                self.places[thing as usize] = place as u32;
                self.waiting.push(list[place], thing);
                Ok(())
            }
        }
    }

    /// Lets the things go on that wait for the one at a place in the order.
    fn release(&mut self, needs: &Lists, done: usize) -> Result<(), NoMemory>
        requires within { AreWithin needs.now }
        requires few { length needs.now < 2 ^ 32 }
        requires done { done < length self.old.order.items }
        requires sound { IsSound needs.now (length needs.now) done None self.old }
        ensures { OnOk result (IsSound needs.now (length needs.now) (done + 1) None self.new) }
    {
        let thing = self.order[done];
        let count = self.waiting.counts[thing as usize];
        for _ in 0..count {
            let next = self.waiting.pop(thing);
            self.advance(needs, next)?;
        }
        Ok(())
    }
}

/// The ranks of things, each behind those of the things that it needs, and the things in their order. A thing has no
/// rank exactly where it leads to a circle. `needs` has for each thing the things that it needs. Takes time in
/// proportion to the number of needs. The only error is want of memory.
pub fn levelize(alloc: Global, needs: &Lists) -> Result<Levels, NoMemory>
    requires { AreWithin needs.now }
    ensures { IfOk result (λ l. AreLevels needs.now l.ranks.items l.order.items) }
{
    let count = needs.len();
    let mut ranking = Ranking::new(alloc, count)?;
    for thing in 0..count {
        ranking.advance(needs, thing as u32)?;
    }
    for done in 0..count {
        if done < ranking.order.len() {
            ranking.release(needs, done)?;
        }
    }
    let Ranking { ranks, order, .. } = ranking;
    Ok(Levels { ranks, order })
}
