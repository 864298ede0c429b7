//! What only an interrupt has (F8).

ghost use Rattle.std.specs.Prelude.{◌≡◌, ◌<◌, Some, slice_get};
ghost use Rattle.rdl_props.specs.declared.prop.Prop.TheVariants as props_;
ghost use Rattle.rdl_values.specs.Elaborated.{nodes_of};
ghost use Rattle.rdl_values.specs.Instances.{Instance};
ghost use Rattle.rdl_layers.specs.Settings.{setting};
ghost use Rattle.rdl_rules.specs.FieldRules as rules;
ghost use Rattle.rdl_rules.specs.Facts.{IsFact};

use rb_base::Trigger;
use rdl_fields::{has, has_one_of};
use rdl_layers::{Props, Setting};
use rdl_props::Prop;
use rdl_rules::Fact;

fn is_nonsticky(props: &Props<'_>, node: u32) -> bool
    requires { node < props.now.count }
    ensures { (n : Instance) → slice_get (nodes_of props.now) node ≡ Some n → result ≡ rules.is_nonsticky (setting n props_.Intr) }
{
    matches!(
        props.value(node, Prop::Intr),
        Setting::Intr(Trigger::Nonsticky)
    )
}

/// F8: a field has what an interrupt of its kind doesn't have, or that only an interrupt has.
pub(crate) fn is_no_interrupt(props: &Props<'_>, node: u32, fact: Fact) -> bool
    requires { node < props.now.count }
    ensures { (n : Instance) → slice_get (nodes_of props.now) node ≡ Some n → IsFact fact n → result ≡ rules.not_interrupt n }
{
    let latches = [Prop::Sticky, Prop::Stickybit];
    let gates = [Prop::We, Prop::Wel];
    let interrupts = has(props, node, Prop::Intr);
    let nonsticky = is_nonsticky(props, node);
    let has_latch = has_one_of(props, node, &latches);
    let has_gate = has_one_of(props, node, &gates);
    (!interrupts & fact.has_parts) | (nonsticky & has_latch) | (interrupts & has_gate)
}
