//! A text that is kept.

ghost use Rattle.std.specs.Prelude.{◌≡◌, IfOk};

use bumpalo::Bump;
use rb_base::NoMemory;

/// The bytes, kept in the arena.
pub(crate) fn keep<'n>(arena: &'n Bump, bytes: &[u8]) -> Result<&'n [u8], NoMemory>
    ensures { IfOk result (λ r. r.now ≡ bytes.now) }
{
    let kept = arena.try_alloc_slice_copy(bytes)?;
    Ok(kept)
}
