//! What a counter counts by, and where it stops (SystemRDL 2.0, 9.8).

ghost use Rattle.std.specs.Prelude.{◌≡◌, ◌<◌, List, Some, slice_get};
ghost use Rattle.rdl_props.specs.declared.prop.Prop.{Prop};
ghost use Rattle.rdl_values.specs.Elaborated.{nodes_of};
ghost use Rattle.rdl_values.specs.Instances.{Instance};
ghost use Rattle.rdl_values.specs.Lineages.{Lineage};
ghost use Rattle.rdl_rules.specs.Feeds.{item_at, level_at, pulse_at};

use rb_model::{Feed, Level, RefItem};
use rdl_layers::{Props, Setting};
use rdl_props::Prop;

/// The level that a property of the node of this number gives, of which this is the item: this plain number where it is just true.
pub fn level(
    props: &Props<'_>,
    node: u32,
    prop: Prop,
    plain: u64,
    item: Option<RefItem>,
) -> Option<Level>
    requires { node < props.now.count }
    ensures { (all : List Lineage) (n : Instance) → slice_get (nodes_of props.now) node ≡ Some n → item ≡ item_at all n prop → result ≡ level_at all n prop plain }
{
    match props.value(node, prop) {
        Setting::Number(number) => return Some(Level::Number(number)),
        Setting::Flag(true) => return Some(Level::Number(plain)),
        _ => {}
    }
    match item {
        Some(item) => Some(Level::Item(item)),
        None => None,
    }
}

/// What makes a counter count, by the item of the property: a pin where there is none.
pub fn pulse(item: Option<RefItem>) -> Feed
    ensures { (all : List Lineage) (n : Instance) (p : Prop) → item ≡ item_at all n p → result ≡ pulse_at all n p }
{
    match item {
        Some(item) => Feed::Item(item),
        None => Feed::Pin,
    }
}
