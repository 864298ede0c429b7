//! A sink in memory, which fails only for want of memory.

ghost use Rattle.std.specs.Prelude.{◌≡◌, []};

use rb_edge::{Failed, Sink};
use std::alloc::Global;

/// The bytes that were written, and how often memory was refused, up to 2^64 - 1.
#[derive(Drop)]
pub(crate) struct Sheet {
    pub bytes: Vec<u8>,
    faults: u64,
}

impl Sheet {
    /// An empty sheet. It takes no memory.
    pub(crate) fn new(alloc: Global) -> Sheet
        ensures { result.bytes.items ≡ [] }
    {
        Sheet {
            bytes: Vec::new(alloc),
            faults: 0,
        }
    }
}

impl Sink for Sheet {
    ghost use Rattle.std.specs.Prelude.{None, Some};

    ghost told = { λ s. record { bytes = Some s.bytes.items; number = None } };

    ghost faults = { λ s. s.faults };

    fn write(&mut self, piece: &[u8]) -> Result<usize, Failed> {
        match self.bytes.extend_from_slice(piece) {
            Ok(()) => Ok(piece.len()),
            Err(_) => {
                self.faults = self.faults.saturating_add(1);
                Err(Failed)
            }
        }
    }
}
