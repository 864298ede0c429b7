//! A sink that counts.
ghost use Rattle.std.specs.Prelude.{◌≡◌, ℕ, length, Ok};
ghost use Rattle.rb_edge.specs.Count.{raised};
ghost use Rattle.rb_edge.specs.CountSink.{told_of};

use crate::sink::{Failed, Sink};
use std::marker::Model;

/// A sink that takes whole pieces, keeps only their number of bytes, and never fails. Contracts
/// see it as that number.
#[derive(Drop)]
pub struct CountSink {
    total: u64,
}

impl Model for CountSink {
    ghost Value = { ℕ };

    ghost view = { λ sink. sink.total };
}

impl CountSink {
    /// A sink that took nothing yet. It takes no memory.
    pub fn new() -> CountSink
        ensures { result ≡ 0 }
    {
        CountSink { total: 0 }
    }

    /// How many bytes were taken. It stops at 2^64 - 1.
    pub fn total(&self) -> u64
        ensures { result ≡ self.now }
    {
        self.total
    }
}

impl Sink for CountSink {
    ghost told = { told_of };

    ghost faults = { λ _. 0 };

    fn write(&mut self, piece: &[u8]) -> Result<usize, Failed>
        ensures all { result ≡ Ok (length piece.now) }
        ensures counted { self.new ≡ raised self.old (length piece.now) }
    {
        self.total = self.total.saturating_add(piece.len() as u64);
        Ok(piece.len())
    }
}
