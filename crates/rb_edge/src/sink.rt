//! Where bytes are written to.
ghost use Rattle.std.specs.Prelude.{◌≡◌, ℕ, ◌<◌, ◌≤◌, [], length, take, OnOk, OnErr, IfOk, MatchResult};
ghost use Rattle.rb_edge.specs.Count.{Rose};
ghost use Rattle.rb_edge.specs.Sink.{Told, Takes, TakesPart};

use thiserror::Error;

/// A read or a write that the outside refused.
#[derive(Clone, Copy, Debug, PartialEq, Eq, Error)]
#[error("a read or a write failed")]
pub struct Failed;

/// Where bytes are written to.
pub trait Sink {
    /// The bytes written, and how many were taken, each where the sink tells it.
    ghost told: { Self → Told };

    /// How often the sink has failed, up to 2^64 - 1.
    ghost faults: { Self → ℕ };

    /// Takes the first bytes of a piece that is not empty, at least one, and answers how many.
    /// [`Failed`] comes only where the count of faults rose, and then nothing was taken.
    fn write(&mut self, piece: &[u8]) -> Result<usize, Failed>
        requires { 0 < length piece.now }
        ensures count { IfOk result (λ n. (0 < n) × (n ≤ length piece.now)) }
        ensures taken { MatchResult result
            (λ n. Takes (told self.old) (told self.new) (take n piece.now))
            (λ _. Takes (told self.old) (told self.new) []) }
        ensures later { faults self.old ≤ faults self.new }
        ensures failed { OnErr result (Rose (faults self.old) (faults self.new)) };
}

/// Writes all the bytes, in as many calls as the sink needs, and none where there are no bytes.
///
/// [`Failed`] comes only where the sink's count of faults rose. Then a proper prefix of the bytes
/// was taken, and no others.
pub fn write_all<K: Sink>(sink: &mut K, bytes: &[u8]) -> Result<(), Failed>
    ensures whole { OnOk result (Takes (K.told sink.old) (K.told sink.new) bytes.now) }
    ensures part { OnErr result (TakesPart (K.told sink.old) (K.told sink.new) bytes.now) }
    ensures later { K.faults sink.old ≤ K.faults sink.new }
    ensures failed { OnErr result (Rose (K.faults sink.old) (K.faults sink.new)) }
    ensures none { bytes.now ≡ [] → sink.new ≡ sink.old }
{
    let mut at = 0;
    while at < bytes.len() {
        at += sink.write(&bytes[at..])?;
    }
    Ok(())
}
