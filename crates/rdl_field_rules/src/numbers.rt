//! Numbers that a field can't hold (F10).

ghost use Rattle.std.specs.Prelude.{◌≡◌, ◌<◌, ◌≤◌, ◌^◌, Some, nat_le, slice_get};
ghost use Rattle.std.specs.List.{list_any};
ghost use Rattle.rdl_values.specs.Elaborated.{nodes_of};
ghost use Rattle.rdl_values.specs.Instances.{Instance};
ghost use Rattle.rdl_layers.specs.Settings.{setting};
ghost use Rattle.rdl_rules.specs.FieldRules as rules;
ghost use Rattle.rdl_rules.specs.Facts.{IsFact};

use rdl_layers::{Props, Setting};
use rdl_props::Prop;
use rdl_rules::Fact;

/// Whether a number needs more bits than these.
fn is_over(width: u64, number: u64) -> bool
    requires { width ≤ 64 }
    ensures { result ≡ nat_le (2 ^ width) number }
{
    if width == 64 {
        return false;
    }
    (1 << width) <= number
}

/// Whether the number that a property is set to needs more bits than these.
fn is_above(props: &Props<'_>, node: u32, prop: Prop, width: u64) -> bool
    requires number { node < props.now.count }
    requires width { width ≤ 64 }
    ensures { (n : Instance) → slice_get (nodes_of props.now) node ≡ Some n → result ≡ rules.is_above (2 ^ width) (setting n prop) }
{
    match props.value(node, prop) {
        Setting::Number(number) => is_over(width, number),
        _ => false,
    }
}

/// Whether one of the numbers that properties are set to does.
fn is_one_above(props: &Props<'_>, node: u32, list: &[Prop], width: u64) -> bool
    requires number { node < props.now.count }
    requires width { width ≤ 64 }
    ensures { (n : Instance) → slice_get (nodes_of props.now) node ≡ Some n → result ≡ list_any (λ p. rules.is_above (2 ^ width) (setting n p)) list.now }
{
    for prop in list {
        if is_above(props, node, *prop, width) {
            return true;
        }
    }
    false
}

/// Whether a pin of the width that a property is set to is none, or is wider than this.
fn is_bad_count_width(props: &Props<'_>, node: u32, prop: Prop, width: u64) -> bool
    requires { node < props.now.count }
    ensures { (n : Instance) → slice_get (nodes_of props.now) node ≡ Some n → result ≡ rules.bad_count_width width (setting n prop) }
{
    match props.value(node, prop) {
        Setting::Number(number) => (number == 0) | (width < number),
        _ => false,
    }
}

/// F10: a number is set that a field can't hold.
pub(crate) fn is_too_wide(props: &Props<'_>, node: u32, fact: Fact) -> bool
    requires number { node < props.now.count }
    requires width { fact.width ≤ 64 }
    ensures { (n : Instance) → slice_get (nodes_of props.now) node ≡ Some n → IsFact fact n → result ≡ rules.too_wide n }
{
    let list = [
        Prop::Reset,
        Prop::Incrvalue,
        Prop::Decrvalue,
        Prop::Incrsaturate,
        Prop::Decrsaturate,
        Prop::Incrthreshold,
        Prop::Decrthreshold,
    ];
    let above = is_one_above(props, node, &list, fact.width);
    let up = is_bad_count_width(props, node, Prop::Incrwidth, fact.width);
    let down = is_bad_count_width(props, node, Prop::Decrwidth, fact.width);
    above | (up | down)
}
