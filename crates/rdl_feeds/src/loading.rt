//! Feeds, gates and masks (SystemRDL 2.0, 9.5, 9.6 and 9.9).

ghost use Rattle.std.specs.Prelude.{◌≡◌, ◌<◌, List, Some, slice_get};
ghost use Rattle.rdl_props.specs.declared.prop.Prop.{Prop};
ghost use Rattle.rdl_props.specs.declared.prop.Prop.TheVariants as prop;
ghost use Rattle.rdl_values.specs.Elaborated.{nodes_of};
ghost use Rattle.rdl_values.specs.Instances.{Instance};
ghost use Rattle.rdl_values.specs.Lineages.{Lineage};
ghost use Rattle.rdl_rules.specs.Feeds.{feed_at, gate_at, has_pin, item_at, mask_at, source_of};

use rb_model::{Feed, Gate, Mask, RefItem};
use rdl_fields::{hardware_writes, has};
use rdl_layers::{Props, Setting};
use rdl_props::Prop;

/// What feeds a property of the node of this number, of which this is the item that it names.
pub fn feed(props: &Props<'_>, node: u32, prop: Prop, item: Option<RefItem>) -> Feed
    requires { node < props.now.count }
    ensures { (all : List Lineage) (n : Instance) → slice_get (nodes_of props.now) node ≡ Some n → item ≡ item_at all n prop → result ≡ feed_at all n prop }
{
    if let Setting::Flag(true) = props.value(node, prop) {
        return Feed::Pin;
    }
    match item {
        Some(item) => Feed::Item(item),
        None => Feed::Off,
    }
}

/// What lets an effect through, by a property that does where it is 1, and one that does where it is 0, of which these are the items.
pub fn gate(
    props: &Props<'_>,
    node: u32,
    high: Prop,
    low: Prop,
    high_item: Option<RefItem>,
    low_item: Option<RefItem>,
) -> Gate
    requires { node < props.now.count }
    ensures { (all : List Lineage) (n : Instance) → slice_get (nodes_of props.now) node ≡ Some n → high_item ≡ item_at all n high → low_item ≡ item_at all n low → result ≡ gate_at all n high low }
{
    if has(props, node, high) {
        return Gate::High(feed(props, node, high, high_item));
    }
    if has(props, node, low) {
        return Gate::Low(feed(props, node, low, low_item));
    }
    Gate::Always
}

/// Which bits count, by the items of a property that lets bits through and of one that takes them.
pub fn mask(enable: Option<RefItem>, masked: Option<RefItem>) -> Mask
    ensures { (all : List Lineage) (n : Instance) (e m : Prop) → enable ≡ item_at all n e → masked ≡ item_at all n m → result ≡ mask_at all n e m }
{
    if let Some(item) = enable {
        return Mask::Enable(item);
    }
    match masked {
        Some(item) => Mask::Mask(item),
        None => Mask::Off,
    }
}

/// Whether hardware writes a field by a pin: a counter has one under a gate alone.
fn is_pin(props: &Props<'_>, node: u32) -> bool
    requires { node < props.now.count }
    ensures { (n : Instance) → slice_get (nodes_of props.now) node ≡ Some n → result ≡ has_pin n }
{
    if !hardware_writes(props, node) {
        return false;
    }
    if !has(props, node, Prop::Counter) {
        return true;
    }
    if has(props, node, Prop::We) {
        return true;
    }
    has(props, node, Prop::Wel)
}

/// What the field of this number loads, of which this is the item of `next`.
pub fn source(props: &Props<'_>, node: u32, next: Option<RefItem>) -> Feed
    requires { node < props.now.count }
    ensures { (all : List Lineage) (n : Instance) → slice_get (nodes_of props.now) node ≡ Some n → next ≡ item_at all n prop.Next → result ≡ source_of all n }
{
    if let Some(item) = next {
        return Feed::Item(item);
    }
    if is_pin(props, node) {
        return Feed::Pin;
    }
    Feed::Off
}
