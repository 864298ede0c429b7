//! Where to look first.

use rb_base::NoMemory;
use std::alloc::Global;
use std::collections::BTreeMap;

// A number as a part of a key. Numbers that are too large share one, which misleads nobody, since what is found is compared.
fn part(number: usize) -> u32 {
    u32::try_from(number).unwrap_or(u32::MAX)
}

/// Which number to try for two numbers. Whoever asks compares what stands there, so nothing rests on it. A source chooses which numbers
/// come together, so they are looked up in order.
#[derive(Drop)]
pub(crate) struct Hints {
    numbers: BTreeMap<(u32, u32), u32>,
}

impl Hints {
    pub fn new(alloc: Global) -> Self {
        Hints {
            numbers: BTreeMap::new(alloc),
        }
    }

    pub fn get(&self, one: usize, other: usize) -> Option<usize> {
        let number = self.numbers.get(&(part(one), part(other))).copied()?;
        Some(number as usize)
    }

    pub fn note(&mut self, one: usize, other: usize, number: usize) -> Result<(), NoMemory> {
        self.numbers.insert((part(one), part(other)), part(number))?;
        Ok(())
    }
}
