//! Which properties are set.

ghost use Rattle.std.specs.Prelude.{◌≡◌, ◌<◌, Some, slice_get};
ghost use Rattle.rdl_values.specs.Elaborated.{nodes_of};
ghost use Rattle.rdl_values.specs.Instances.{Instance};
ghost use Rattle.rdl_layers.specs.Fields as fields;

use rdl_layers::{Props, Setting};
use rdl_props::Prop;

/// Whether a property of the node of this number is set, and not to false.
pub fn has(props: &Props<'_>, node: u32, prop: Prop) -> bool
    requires { node < props.now.count }
    ensures { (n : Instance) → slice_get (nodes_of props.now) node ≡ Some n → result ≡ fields.has prop n }
{
    match props.value(node, prop) {
        Setting::Unset => false,
        Setting::Flag(flag) => flag,
        _ => true,
    }
}

/// Whether one of these properties is.
pub fn has_one_of(props: &Props<'_>, node: u32, list: &[Prop]) -> bool
    requires { node < props.now.count }
    ensures { (n : Instance) → slice_get (nodes_of props.now) node ≡ Some n → result ≡ fields.has_one_of list.now n }
{
    for prop in list {
        if has(props, node, *prop) {
            return true;
        }
    }
    false
}
