//! How the children of a container are placed.

ghost use Rattle.std.specs.Prelude.{◌≡◌, ◌<◌, Some, slice_get};
ghost use Rattle.rdl_values.specs.Elaborated.{nodes_of};
ghost use Rattle.rdl_values.specs.Instances.{Instance, kind_of};
ghost use Rattle.rdl_layers.specs.Settings.{setting};
ghost use Rattle.rdl_props.specs.declared.prop.Prop.TheVariants as prop;
ghost use Rattle.rdl_addr.specs.Modes.{mode_by};

use rdl_base::Keyword;
use rdl_layers::{Props, Setting};
use rdl_layout::Mode;
use rdl_props::Prop;
use rdl_tree::Kind;

/// The mode in the body of a node of this kind and number: an address map has its own, and all else that of the map that it is in
/// (SystemRDL 2.0, 13.4).
pub fn mode_inside(props: &Props<'_>, kind: Kind, node: u32, outer: Mode) -> Mode
    requires { node < props.now.count }
    ensures { (n : Instance) → slice_get (nodes_of props.now) node ≡ Some n → kind ≡ kind_of n → result ≡ mode_by outer kind (setting n prop.Addressing) }
{
    if kind != Kind::Addrmap {
        return outer;
    }
    match props.value(node, Prop::Addressing) {
        Setting::Word(Keyword::Compact) => Mode::Compact,
        Setting::Word(Keyword::Fullalign) => Mode::Fullalign,
        _ => Mode::Regalign,
    }
}
