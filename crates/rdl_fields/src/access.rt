//! What software and hardware do with a field (SystemRDL 2.0, 9.4 and 9.6).

ghost use Rattle.std.specs.Prelude.{◌≡◌, ◌<◌, Some, slice_get};
ghost use Rattle.rdl_values.specs.Elaborated.{nodes_of};
ghost use Rattle.rdl_values.specs.Instances.{Instance};
ghost use Rattle.rdl_layers.specs.Fields as fields;

use crate::given::has;
use rdl_base::Keyword;
use rdl_layers::{Props, Setting};
use rdl_props::Prop;

/// Whether hardware writes a field.
pub fn hardware_writes(props: &Props<'_>, node: u32) -> bool
    requires { node < props.now.count }
    ensures { (n : Instance) → slice_get (nodes_of props.now) node ≡ Some n → result ≡ fields.hardware_writes n }
{
    matches!(
        props.value(node, Prop::Hw),
        Setting::Word(Keyword::Rw | Keyword::W | Keyword::Rw1 | Keyword::W1)
    )
}

/// Whether hardware reads a field.
pub fn hardware_reads(props: &Props<'_>, node: u32) -> bool
    requires { node < props.now.count }
    ensures { (n : Instance) → slice_get (nodes_of props.now) node ≡ Some n → result ≡ fields.hardware_reads n }
{
    matches!(
        props.value(node, Prop::Hw),
        Setting::Word(Keyword::Rw | Keyword::R | Keyword::Rw1)
    )
}

/// Whether only the first write to a field after reset has an effect.
pub fn is_once(props: &Props<'_>, node: u32) -> bool
    requires { node < props.now.count }
    ensures { (n : Instance) → slice_get (nodes_of props.now) node ≡ Some n → result ≡ fields.is_once n }
{
    matches!(
        props.value(node, Prop::Sw),
        Setting::Word(Keyword::Rw1 | Keyword::W1)
    )
}

/// Whether a write to a field does something else than to set the bits written.
pub fn has_on_write(props: &Props<'_>, node: u32) -> bool
    requires { node < props.now.count }
    ensures { (n : Instance) → slice_get (nodes_of props.now) node ≡ Some n → result ≡ fields.has_on_write n }
{
    has(props, node, Prop::Onwrite)
        || has(props, node, Prop::Woset)
        || has(props, node, Prop::Woclr)
}
