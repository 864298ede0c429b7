//! Which operations read each place.

use crate::narrow::NarrowOperation;
use rb_base::NoMemory;
use std::alloc::Global;

/// For each place the numbers of the operations that read it, rising: those from its start up to the next place's.
#[derive(Drop)]
pub struct Fan {
    pub starts: Vec<u32>,
    pub readers: Vec<u32>,
}

/// Counts a reader of a place, two places behind it.
fn count_reader(starts: &mut [u32], place: u32) {
    let at = (place as usize).saturating_add(2);
    if at < starts.len() {
        starts[at] = starts[at].saturating_add(1);
    }
}

/// Counts the readers of each place, two places behind it.
fn count_readers(starts: &mut [u32], operations: &[NarrowOperation]) {
    for operation in operations {
        count_reader(starts, operation.first);
        if operation.second != operation.first {
            count_reader(starts, operation.second);
        }
        if operation.third != operation.first && operation.third != operation.second {
            count_reader(starts, operation.third);
        }
    }
}

/// Adds to each number those before it, and answers the last sum.
fn add_up(starts: &mut [u32]) -> u32 {
    let mut sum: u32 = 0;
    for start in starts.iter_mut() {
        sum = sum.saturating_add(*start);
        *start = sum;
    }
    sum
}

/// Puts a reader of a place where the place's next one stands, which the number one place behind says.
fn put_reader(starts: &mut [u32], readers: &mut [u32], place: u32, reader: u32) {
    let end = (place as usize).saturating_add(1);
    if end < starts.len() {
        let at = starts[end];
        if (at as usize) < readers.len() {
            readers[at as usize] = reader;
            starts[end] = at.saturating_add(1);
        }
    }
}

/// Puts the readers of each place behind one another.
fn put_readers(starts: &mut [u32], readers: &mut [u32], operations: &[NarrowOperation]) {
    let mut reader: u32 = 0;
    for operation in operations {
        put_reader(starts, readers, operation.first, reader);
        if operation.second != operation.first {
            put_reader(starts, readers, operation.second, reader);
        }
        if operation.third != operation.first && operation.third != operation.second {
            put_reader(starts, readers, operation.third, reader);
        }
        reader = reader.saturating_add(1);
    }
}

impl Fan {
    ghost use Rattle.std.specs.Prelude.{◌≡◌, ℕ, ◌<◌, length, slice_index};
    ghost use Rattle.std.specs.Bool.{OnTrue};
    ghost use Rattle.sim_lanes.specs.Due.{Feeds, IsAmong, IsFed, IsReader};

    /// The fan of operations over so many places.
    pub fn of(
        alloc: Global,
        operations: &[NarrowOperation],
        places: usize,
    ) -> Result<Fan, NoMemory> {
        let mut starts = vec![in alloc; 0; places.saturating_add(2)]?;
        count_readers(&mut starts, operations);
        let all = add_up(&mut starts);
        let mut readers = vec![in alloc; 0; all as usize]?;
        put_readers(&mut starts, &mut readers, operations);
        Ok(Fan { starts, readers })
    }

    /// The operations that read a place.
    #[inline(always)]
    pub fn readers_of(&self, place: usize) -> &[u32]
        ensures all { (operation : ℕ) → IsReader self.now place operation → IsAmong result.now operation }
        ensures each { (i : ℕ) → i < length result.now → IsReader self.now place (slice_index result.now i) }
    {
        if place < self.starts.len() && self.starts.len() - place > 1 {
            let from = self.starts[place] as usize;
            let end = self.starts[place + 1] as usize;
            if from <= end && end <= self.readers.len() {
                return &self.readers[from..end];
            }
        }
        &[]
    }

    /// Whether an operation stands among those of a place.
    fn is_reader(&self, place: u32, operation: u32) -> bool
        ensures { OnTrue result (IsReader self.now place operation) }
    {
        let readers = self.readers_of(place as usize);
        match readers.binary_search(&operation) {
            Ok(_) => true,
            Err(_) => false,
        }
    }

    /// Whether an operation of this number stands among those of each place that it reads.
    fn feeds(&self, number: u32, operation: &NarrowOperation) -> bool
        ensures { OnTrue result (Feeds self.now number operation.now) }
    {
        self.is_reader(operation.first, number)
            && self.is_reader(operation.second, number)
            && self.is_reader(operation.third, number)
    }

    /// Whether each operation stands among those of each place that it reads.
    pub fn feeds_all(&self, operations: &[NarrowOperation]) -> bool
        ensures { OnTrue result (IsFed self.now operations.now) }
    {
        for (index, operation) in operations.iter().enumerate() {
            if index >= 1 << 32 {
                return false;
            }
            if !self.feeds(index as u32, operation) {
                return false;
            }
        }
        true
    }
}
