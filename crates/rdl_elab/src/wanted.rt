//! The name of the top that is wanted.

ghost use Rattle.std.specs.Prelude.{◌≡◌};
ghost use Rattle.std.specs.Option.{option_copied};

/// The bytes of a name.
pub(crate) fn bytes_of<'t>(name: Option<&'t str>) -> Option<&'t [u8]>
    ensures { option_copied result ≡ option_copied name.entry }
{
    match name {
        Some(name) => Some(name.as_bytes()),
        None => None,
    }
}
