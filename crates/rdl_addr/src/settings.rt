//! Settings of nodes, as numbers and as what software does.

ghost use Rattle.std.specs.Prelude.{◌≡◌, ◌<◌, ◌||◌, Some, slice_get};
ghost use Rattle.rdl_values.specs.Elaborated.{nodes_of};
ghost use Rattle.rdl_values.specs.Instances.{Instance};
ghost use Rattle.rdl_layers.specs.Fields.{has_on_read, is_given, reads, writes};
ghost use Rattle.rdl_layers.specs.Phase4.{number_at};
ghost use Rattle.rdl_layers.specs.Settings.{setting};

use rdl_base::Keyword;
use rdl_layers::{Props, Setting};
use rdl_props::Prop;

/// The number that a property is set to, 0 where there is none.
pub fn number(props: &Props<'_>, node: u32, prop: Prop) -> u64
    requires { node < props.now.count }
    ensures { (n : Instance) → slice_get (nodes_of props.now) node ≡ Some n → result ≡ number_at n prop }
{
    match props.value(node, prop) {
        Setting::Number(number) => number,
        _ => 0,
    }
}

/// Whether a property is set, and not to false.
fn is_set(props: &Props<'_>, node: u32, prop: Prop) -> bool
    requires { node < props.now.count }
    ensures { (n : Instance) → slice_get (nodes_of props.now) node ≡ Some n → result ≡ is_given (setting n prop) }
{
    match props.value(node, prop) {
        Setting::Unset => false,
        Setting::Flag(flag) => flag,
        _ => true,
    }
}

/// Whether a read of a field gives its value.
pub fn gives(props: &Props<'_>, node: u32) -> bool
    requires { node < props.now.count }
    ensures { (n : Instance) → slice_get (nodes_of props.now) node ≡ Some n → result ≡ reads n }
{
    matches!(
        props.value(node, Prop::Sw),
        Setting::Word(Keyword::Rw | Keyword::R | Keyword::Rw1)
    )
}

/// Whether a write to a field has an effect.
pub fn takes(props: &Props<'_>, node: u32) -> bool
    requires { node < props.now.count }
    ensures { (n : Instance) → slice_get (nodes_of props.now) node ≡ Some n → result ≡ writes n }
{
    matches!(
        props.value(node, Prop::Sw),
        Setting::Word(Keyword::Rw | Keyword::W | Keyword::Rw1 | Keyword::W1)
    )
}

/// Whether a read changes a field.
pub fn changes(props: &Props<'_>, node: u32) -> bool
    requires { node < props.now.count }
    ensures { (n : Instance) → slice_get (nodes_of props.now) node ≡ Some n → result ≡ has_on_read n }
{
    is_set(props, node, Prop::Onread)
        || is_set(props, node, Prop::Rclr)
        || is_set(props, node, Prop::Rset)
}
