//! Pieces of lines, put behind those that wait on a page.

ghost use Rattle.std.specs.Prelude.{flat_map};
ghost use Rattle.rb_edge.specs.Flows.{Flows};

use rb_edge::{Failed, Page, Sink};

/// Writes pieces, one behind the other.
pub(crate) fn put_all<K: Sink>(page: &mut Page, out: &mut K, pieces: &[&[u8]]) -> Result<(), Failed>
    ensures { Flows (K.told out.old) (K.told out.new) (K.faults out.old) (K.faults out.new)
        page.old page.new result (flat_map (λ p. p.now) pieces.now) }
{
    for piece in pieces {
        page.put(out, piece)?;
    }
    Ok(())
}
