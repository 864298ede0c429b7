//! What software does with registers.

ghost use Rattle.std.specs.Prelude.{◌≡◌};
ghost use Rattle.rdl_block_words.specs.Access as spec;

use crate::entry::PlacedRegister;

/// What software does at an address.
#[derive(Clone, Copy, Debug)]
pub(crate) enum Access {
    Reads,
    Writes,
}

/// The other one.
pub(crate) fn opposite(access: Access) -> Access
    ensures { result ≡ spec.opposite access }
{
    match access {
        Access::Reads => Access::Writes,
        Access::Writes => Access::Reads,
    }
}

/// Whether software does only this with a register.
pub(crate) fn is_only(entry: &PlacedRegister<'_>, access: Access) -> bool
    ensures { result ≡ spec.is_only access entry.now }
{
    match access {
        Access::Reads => entry.is_read_only,
        Access::Writes => entry.is_write_only,
    }
}
