//! Lists of numbers.

ghost use Rattle.std.specs.Prelude.{◌≡◌, ◌≤◌, ◌-◌, ◌++◌, ℕ, List, OnOk, drop, length, take};
ghost use Rattle.topological_order.specs.Lists.{start_at};

use rb_base::NoMemory;
use std::alloc::Global;
use std::marker::Model;

/// What no number, no place and no count reaches.
const LIMIT: usize = 4_294_967_295;

/// Lists of numbers, one behind the other in one vector. Contracts see the list of them.
#[derive(Drop)]
pub struct Lists {
    /// For each list the place behind its last number.
    ends: Vec<u32>,
    /// The numbers of all lists, and some that belong to none where memory was refused.
    numbers: Vec<u32>,
}

impl Model for Lists {
    ghost use Rattle.std.specs.Prelude.{List, ℕ};
    ghost use Rattle.topological_order.specs.Lists.{AreEnds, cut};

    ghost Value = { List (List ℕ) };

    ghost view = { λ l. cut 0 l.ends.items l.numbers.items };

    ghost invariant = { λ l. AreEnds l.ends.items l.numbers.items };
}

/// Where the list at a place starts.
fn start_of(ends: &[u32], at: usize) -> usize
    requires { at ≤ length ends.now }
    ensures { result ≡ start_at 0 ends.now at }
{
    if at == 0 { 0 } else { ends[at - 1] as usize }
}

/// The numbers from a place to another.
fn part(numbers: &[u32], start: usize, end: usize) -> &[u32]
    requires rise { start ≤ end }
    requires within { end ≤ length numbers.now }
    ensures { result.now ≡ take (end - start) (drop start numbers.now) }
{
    &numbers[start..end]
}

/// Puts numbers behind others, some of them where memory is refused. A number that doesn't fit is refused like memory.
fn add_all(numbers: &mut Vec<u32>, list: &[usize]) -> Result<(), NoMemory>
    ensures ok { OnOk result (numbers.new.items ≡ numbers.old.items ++ list.now) }
    ensures more { (more : List ℕ) × (numbers.new.items ≡ numbers.old.items ++ more) }
{
    for number in list {
        let Ok(number) = u32::try_from(*number) else {
            return Err(NoMemory);
        };
        numbers.push(number)?;
    }
    Ok(())
}

impl Lists {
    ghost use Rattle.std.specs.Prelude.{◌≡◌, ◌<◌, ◌^◌, ◌++◌, ◌∷◌, [], OnErr, OnOk, length, slice_index_or};

    /// No lists.
    pub fn new(alloc: Global) -> Lists
        ensures { result ≡ [] }
    {
        Lists {
            ends: Vec::new(alloc),
            numbers: Vec::new(alloc),
        }
    }

    /// How many lists there are.
    pub fn len(&self) -> usize
        ensures len { result ≡ length self.now }
        ensures few { result < 2 ^ 32 }
    {
        self.ends.len()
    }

    /// The list at a place.
    pub fn get(&self, at: usize) -> &[u32]
        requires { at < length self.now }
        ensures list { result.now ≡ slice_index_or self.now at [] }
        ensures short { length result.now < 2 ^ 32 }
    {
        let start = start_of(&self.ends, at);
        part(&self.numbers, start, self.ends[at] as usize)
    }

    /// Adds a list. The only error is want of memory: what passes 32 bits is refused like it, since all that comes before takes
    /// 16 GiB.
    pub fn add(&mut self, list: &[usize]) -> Result<(), NoMemory>
        ensures ok { OnOk result (self.new ≡ self.old ++ list.now ∷ []) }
        ensures err { OnErr result (self.new ≡ self.old) }
    {
        let start = start_of(&self.ends, self.ends.len());
        self.numbers.truncate(start);
        add_all(&mut self.numbers, list)?;
        let Ok(end) = u32::try_from(self.numbers.len()) else {
            return Err(NoMemory);
        };
        if self.ends.len() >= LIMIT {
            return Err(NoMemory);
        }
        self.ends.push(end)?;
        Ok(())
    }
}
