//! The interrupt of a field, its reset value, and who has the last word (SystemRDL 2.0, 9.4, 9.5 and 9.9).

ghost use Rattle.std.specs.Prelude.{◌≡◌, ◌<◌, Some, slice_get};
ghost use Rattle.rdl_values.specs.Elaborated.{nodes_of};
ghost use Rattle.rdl_values.specs.Instances.{Instance};
ghost use Rattle.rdl_layers.specs.Settings.{setting};
ghost use Rattle.rdl_props.specs.declared.prop.Prop.TheVariants as properties;
ghost use Rattle.rdl_rules.specs.Fields as fields;

use rb_base::Trigger;
use rb_model::Latch;
use rdl_fields::has;
use rdl_layers::{Props, Setting};
use rdl_props::Prop;

/// How the node of this number latches events, if it is an interrupt.
pub fn latch(props: &Props<'_>, node: u32) -> Latch
    requires { node < props.now.count }
    ensures { (n : Instance) → slice_get (nodes_of props.now) node ≡ Some n → result ≡ fields.latch_of n }
{
    match props.value(node, Prop::Intr) {
        Setting::Intr(Trigger::Nonsticky) => Latch::Plain,
        Setting::Intr(trigger) if has(props, node, Prop::Sticky) => Latch::Whole(trigger),
        Setting::Intr(trigger) => Latch::Bits(trigger),
        _ => Latch::Off,
    }
}

/// Whether hardware has the last word where software changes a field at the same edge.
pub fn hardware_first(props: &Props<'_>, node: u32) -> bool
    requires { node < props.now.count }
    ensures { (n : Instance) → slice_get (nodes_of props.now) node ≡ Some n → result ≡ fields.hardware_first (setting n properties.Precedence) }
{
    matches!(props.value(node, Prop::Precedence), Setting::Hard(true))
}

/// The value that a field has after reset, if one is given.
pub fn reset_value(props: &Props<'_>, node: u32) -> Option<u64>
    requires { node < props.now.count }
    ensures { (n : Instance) → slice_get (nodes_of props.now) node ≡ Some n → result ≡ fields.reset_value n }
{
    match props.value(node, Prop::Reset) {
        Setting::Number(number) => Some(number),
        _ => None,
    }
}
