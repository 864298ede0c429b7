//! A page of bytes in front of a sink.

ghost use Rattle.std.specs.Prelude.{◌≡◌, ℕ, ◌++◌, ◌+◌, ◌≤◌, List, [], length, take, Ok, OnErr};
ghost use Rattle.rb_edge.specs.Flows.{Flows};

use crate::sink::{Failed, Sink, write_all};
use std::marker::Model;

/// How many bytes a page has room for.
const SIZE: usize = 65536;

/// Bytes that wait to be written, at most 65,536. Contracts see them as a list.
///
/// A page lies where it is made, which is the stack of the function that prints, and takes no
/// other memory. Lend it by `&mut`: given by value, all its room is copied. What still waits where
/// a page is dropped is never written, so the last call is [`Page::flush`].
#[derive(Drop)]
pub struct Page {
    bytes: [u8; SIZE],
    len: usize,
}

impl Model for Page {
    ghost use Rattle.std.specs.Prelude.{ℕ, ◌≤◌, List, length, take};

    ghost Value = { List ℕ };

    ghost view = { λ p. take p.len p.bytes };

    ghost invariant = { λ p. p.len ≤ 65536 };
}

impl Page {
    ghost use Rattle.std.specs.Prelude.{◌≡◌, ◌++◌, ◌+◌, ◌≤◌, [], length, Ok, OnErr};
    ghost use Rattle.rb_edge.specs.Flows.{Flows};

    /// A page on which nothing waits.
    pub fn new() -> Page
        ensures { result ≡ [] }
    {
        Page {
            bytes: [0; SIZE],
            len: 0,
        }
    }

    /// Writes all that waits, and calls the sink only where something does.
    ///
    /// [`Failed`] comes only where the sink's count of faults rose. Then a proper prefix of what
    /// waited was written. Whatever the answer, nothing waits any more.
    pub fn flush<K: Sink>(&mut self, out: &mut K) -> Result<(), Failed>
        ensures flows { Flows (K.told out.old) (K.told out.new) (K.faults out.old) (K.faults out.new)
            self.old self.new result [] }
        ensures empty { self.new ≡ [] }
        ensures none { self.old ≡ [] → out.new ≡ out.old }
    {
        let len = self.len;
        self.len = 0;
        write_all(out, &self.bytes[..len])
    }

    // Puts bytes behind those that wait, where there is room.
    fn add(&mut self, bytes: &[u8])
        requires { length self.old + length bytes.now ≤ 65536 }
        ensures { self.new ≡ self.old ++ bytes.now }
    {
        let start = self.len;
        let end = start + bytes.len();
        self.bytes[start..end].copy_from_slice(bytes);
        self.len = end;
    }

    // Writes all that waits, and then bytes for which no page has room.
    fn pass<K: Sink>(&mut self, out: &mut K, bytes: &[u8]) -> Result<(), Failed>
        ensures flows { Flows (K.told out.old) (K.told out.new) (K.faults out.old) (K.faults out.new)
            self.old self.new result bytes.now }
        ensures empty { self.new ≡ [] }
    {
        self.flush(out)?;
        write_all(out, bytes)
    }

    /// Puts bytes behind those that wait, and calls the sink only where the page has no room for
    /// them: first with all that waits, and then with bytes for which no page has room.
    ///
    /// [`Failed`] comes only where the sink's count of faults rose. Then a proper prefix of what
    /// waited and these bytes was written, and nothing waits any more.
    pub fn put<K: Sink>(&mut self, out: &mut K, bytes: &[u8]) -> Result<(), Failed>
        ensures flows { Flows (K.told out.old) (K.told out.new) (K.faults out.old) (K.faults out.new)
            self.old self.new result bytes.now }
        ensures waits { length self.old + length bytes.now ≤ 65536
            → (result ≡ Ok tt) × (out.new ≡ out.old) × (self.new ≡ self.old ++ bytes.now) }
        ensures dropped { OnErr result (self.new ≡ []) }
    {
        if bytes.len() > SIZE {
            return self.pass(out, bytes);
        }
        if bytes.len() > SIZE - self.len {
            self.flush(out)?;
        }
        self.add(bytes);
        Ok(())
    }
}
