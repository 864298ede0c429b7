//! How far a counter counts, and its levels where none is given (SystemRDL 2.0, 9.8).

ghost use Rattle.std.specs.Prelude.{◌≡◌, ◌<◌, ℕ, List, Some, slice_get};
ghost use Rattle.rdl_values.specs.Elaborated.{nodes_of};
ghost use Rattle.rdl_values.specs.Instances.{Instance};
ghost use Rattle.rdl_values.specs.Lineages.{Lineage};
ghost use Rattle.rdl_layers.specs.Settings.{number, setting};
ghost use Rattle.rdl_rules.specs.Feeds as feeds;

use rb_model::{Amount, Level, RefItem};
use rdl_layers::{Props, Setting};
use rdl_props::Prop;

/// A number below 256.
fn byte(number: u64) -> u8
    requires { number < 256 }
    ensures { result ≡ number }
{
    number as u8
}

/// How far the counter of this number counts, by a property of which this is the item, and by one that gives the width of a pin.
pub fn amount(
    props: &Props<'_>,
    node: u32,
    value: Prop,
    width: Prop,
    item: Option<RefItem>,
) -> Amount
    requires node { node < props.now.count }
    requires narrow { (n : Instance) (w : ℕ) → slice_get (nodes_of props.now) node ≡ Some n → setting n width ≡ number w → w < 256 }
    ensures { (all : List Lineage) (n : Instance) → slice_get (nodes_of props.now) node ≡ Some n → item ≡ feeds.item_at all n value → result ≡ feeds.amount_at all n value width }
{
    if let Setting::Number(number) = props.value(node, value) {
        return Amount::Number(number);
    }
    if let Some(item) = item {
        return Amount::Item(item);
    }
    if let Setting::Number(width) = props.value(node, width) {
        return Amount::Pin(byte(width));
    }
    Amount::Number(1)
}

/// A level, or this number where there is none.
pub fn level_or(level: Option<Level>, number: u64) -> Level
    ensures { result ≡ feeds.level_or level number }
{
    match level {
        Some(level) => level,
        None => Level::Number(number),
    }
}
