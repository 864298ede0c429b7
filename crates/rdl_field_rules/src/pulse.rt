//! Single pulses (F9).

ghost use Rattle.std.specs.Prelude.{◌≡◌, ◌<◌, Some, slice_get};
ghost use Rattle.rdl_props.specs.declared.prop.Prop.TheVariants as props_;
ghost use Rattle.rdl_values.specs.Elaborated.{nodes_of};
ghost use Rattle.rdl_values.specs.Instances.{Instance};
ghost use Rattle.rdl_layers.specs.Settings.{setting};
ghost use Rattle.rdl_rules.specs.FieldRules as rules;
ghost use Rattle.rdl_rules.specs.Fields as spec;
ghost use Rattle.rdl_rules.specs.Facts.{IsFact};

use rdl_addr::{changes, takes};
use rdl_fields::{hardware_writes, has, has_on_write, is_once};
use rdl_layers::{Props, Setting};
use rdl_props::Prop;
use rdl_rules::Fact;

fn resets_to_zero(props: &Props<'_>, node: u32) -> bool
    requires { node < props.now.count }
    ensures { (n : Instance) → slice_get (nodes_of props.now) node ≡ Some n → result ≡ rules.is_zero (setting n props_.Reset) }
{
    match props.value(node, Prop::Reset) {
        Setting::Number(number) => number == 0,
        _ => false,
    }
}

fn is_hardware_first(props: &Props<'_>, node: u32) -> bool
    requires { node < props.now.count }
    ensures { (n : Instance) → slice_get (nodes_of props.now) node ≡ Some n → result ≡ spec.hardware_first (setting n props_.Precedence) }
{
    match props.value(node, Prop::Precedence) {
        Setting::Hard(hard) => hard,
        _ => false,
    }
}

/// F9: a single pulse isn't one bit that software alone writes, and that is reset to 0.
pub(crate) fn is_bad_pulse(props: &Props<'_>, node: u32, fact: Fact) -> bool
    requires { node < props.now.count }
    ensures { (n : Instance) → slice_get (nodes_of props.now) node ≡ Some n → IsFact fact n → result ≡ rules.bad_pulse n }
{
    let pulses = has(props, node, Prop::Singlepulse);
    let one_bit = fact.width == 1;
    let zero = resets_to_zero(props, node);
    let by_hardware = hardware_writes(props, node);
    let first = is_hardware_first(props, node);
    let on_write = has_on_write(props, node);
    let on_read = changes(props, node);
    let is_written = takes(props, node);
    let once = is_once(props, node);
    let is_bad = !one_bit | !zero | by_hardware | first | on_write | on_read | !is_written | once;
    pulses & is_bad
}
