//! The properties that take references.

ghost use Rattle.std.specs.Prelude.{◌≡◌};
ghost use Rattle.rdl_props.specs.Table as table;

use crate::prop::Prop;

/// All properties that a reference may be assigned to, in the order of the table.
pub fn reference_props() -> [Prop; 22]
    ensures { result ≡ table.reference_props }
{
    [
        Prop::Resetsignal,
        Prop::Swwe,
        Prop::Swwel,
        Prop::We,
        Prop::Wel,
        Prop::Next,
        Prop::Hwset,
        Prop::Hwclr,
        Prop::Hwenable,
        Prop::Hwmask,
        Prop::Incr,
        Prop::Decr,
        Prop::Incrvalue,
        Prop::Decrvalue,
        Prop::Incrsaturate,
        Prop::Decrsaturate,
        Prop::Incrthreshold,
        Prop::Decrthreshold,
        Prop::Enable,
        Prop::Mask,
        Prop::Haltenable,
        Prop::Haltmask,
    ]
}
