//! Which properties one assignment settles.
ghost use Rattle.std.specs.Prelude.{◌≡◌};
ghost use Rattle.rdl_layers.specs.Ranks as spec;

use rdl_props::{Prop, group};

/// Whether an assignment of the one property settles the other too: they are one, or they exclude each other.
pub fn is_related(prop: Prop, other: Prop) -> bool
    ensures { result ≡ spec.is_related prop other }
{
    if prop == other {
        return true;
    }
    match (group(prop), group(other)) {
        (Some(a), Some(b)) => a == b,
        _ => false,
    }
}
