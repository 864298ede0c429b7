//! The text of a module in memory.

ghost use Rattle.std.specs.Prelude.{◌≡◌, ◌++◌, ℕ, [], length, Ok, IfOk, OnOk, OnErr};
ghost use Rattle.rb_edge.specs.Count.{raised};
ghost use Rattle.v_printer.specs.Layout.{text_of};
ghost use Rattle.v_printer.specs.TextOf.{IsWhole, IsTextOf};
ghost use Rattle.v_printer.specs.TextSink.{told_of};

use crate::module::print;
use rb_base::NoMemory;
use rb_edge::{Failed, Sink};
use rtl_net::Netlist;
use std::alloc::Global;

/// A sink that keeps all bytes, and fails where memory is refused.
#[derive(Drop)]
struct TextSink {
    bytes: Vec<u8>,
    faults: u64,
}

impl Sink for TextSink {
    ghost told = { told_of };

    ghost faults = { λ s. s.faults };

    fn write(&mut self, piece: &[u8]) -> Result<usize, Failed> {
        if self.bytes.extend_from_slice(piece).is_err() {
            self.faults = self.faults.saturating_add(1);
            return Err(Failed);
        }
        Ok(piece.len())
    }
}

/// The bytes that [`print`] writes. The only error is want of memory, after which nothing is kept.
pub fn text(alloc: Global, net: &Netlist) -> Result<Vec<u8>, NoMemory>
    requires { IsWhole net.now }
    ensures module { IfOk result (λ text. IsTextOf net.now text.items) }
    ensures same { IfOk result (λ text. text.items ≡ text_of net.now) }
{
    let mut sink = TextSink {
        bytes: Vec::new(alloc),
        faults: 0,
    };
    match print(net, &mut sink) {
        Ok(()) => Ok(sink.bytes),
        Err(Failed) => Err(NoMemory),
    }
}
