//! A sink in memory.
ghost use Rattle.std.specs.Prelude.{◌≡◌, ℕ, ◌-◌, ◌<◌, ◌≤◌, min, [], length, take, Some, IfOk, OnErr, IsErr, is_err, MatchResult, ◌↔◌, vec_capacity};
ghost use Rattle.rb_edge.specs.Count.{Rose};
ghost use Rattle.rb_edge.specs.Sink.{Takes};

use crate::sink::{Failed, Sink};
use rb_base::NoMemory;
use std::alloc::Global;

/// A sink in memory, which takes at most so many bytes in a call and in all, and fails at the
/// calls that are chosen when it is made.
#[derive(Drop)]
pub struct MemSink {
    bytes: Vec<u8>,
    most: usize,
    room: usize,
    fails: Vec<u64>,
    calls: u64,
    faults: u64,
    ghost takes_some: { 0 < most },
    ghost within: { length bytes.items ≤ room },
    ghost reserved: { room ≤ vec_capacity bytes },
}

impl MemSink {
    ghost use Rattle.rb_edge.specs.MemSink.{held, start};

    /// An empty sink, with the memory for all its room. A call takes at most `most` bytes, all
    /// calls take `room` bytes, and the calls that `fails` numbers fail, the first call being 0.
    /// The only error is want of memory.
    pub fn new(alloc: Global, most: usize, room: usize, fails: &[u64]) -> Result<MemSink, NoMemory>
        requires { 0 < most }
        ensures { IfOk result (λ sink. held sink ≡ start most room fails.now) }
    {
        Ok(MemSink {
            bytes: Vec::with_capacity(alloc, room)?,
            most,
            room,
            fails: fails.to_vec(alloc)?,
            calls: 0,
            faults: 0,
        })
    }

    /// What is held. It takes no memory.
    pub fn bytes(&self) -> &[u8]
        ensures { result.now ≡ (held self.now).bytes }
    {
        &self.bytes
    }
}

impl Sink for MemSink {
    ghost use Rattle.rb_edge.specs.MemSink.{held, told_of, IsToFail, GoesOn};

    ghost told = { told_of };

    ghost faults = { λ s. (held s).faults };

    fn write(&mut self, piece: &[u8]) -> Result<usize, Failed>
        requires { 0 < length piece.now }
        ensures count { IfOk result (λ n. (0 < n) × (n ≤ length piece.now)) }
        ensures taken { MatchResult result
            (λ n. Takes (told_of self.old) (told_of self.new) (take n piece.now))
            (λ _. Takes (told_of self.old) (told_of self.new) []) }
        ensures later { (held self.old).faults ≤ (held self.new).faults }
        ensures failed { OnErr result (Rose (held self.old).faults (held self.new).faults) }

        // It fails exactly at the calls that were chosen and where there is no room.
        ensures fails { IsErr result ↔ IsToFail (held self.old) }
        ensures amount { let sink = held self.old in
            IfOk result (λ n. n ≡ min (min (length piece.now) sink.most)
            (sink.room - length sink.bytes)) }
        ensures goes_on { GoesOn (held self.old) (held self.new) (is_err result) }
    {
        let fails = self.fails.contains(&self.calls);
        self.calls = self.calls.saturating_add(1);
        let left = self.room - self.bytes.len();
        if fails || left == 0 {
            self.faults = self.faults.saturating_add(1);
            return Err(Failed);
        }
        let count = piece.len().min(self.most).min(left);
        self.bytes.extend_from_slice(&piece[..count]).unwrap();
        Ok(count)
    }
}
