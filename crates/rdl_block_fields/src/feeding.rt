//! What a field's behaviour takes its values from, in a tree of which all is known.

ghost use Rattle.std.specs.Prelude.{◌≡◌, ◌<◌, ◌≤◌, Some, slice_get};
ghost use Rattle.rdl_values.specs.Elaborated.{nodes_of};
ghost use Rattle.rdl_values.specs.Instances.{Instance};
ghost use Rattle.rdl_values.specs.Lineages.{lineages_of};
ghost use Rattle.rdl_layers.specs.Fields as settings;
ghost use Rattle.rdl_layers.specs.Phase4.{width_of};
ghost use Rattle.rdl_rules.specs.Feeds as feeds;
ghost use Rattle.rdl_feeds.specs.Narrow.{AreNarrow};
ghost use Rattle.rdl_block_fields.specs.Known.{IsNumberedTree};

use rb_model::{Count, Feed, Gate, Mask, RefItem};
use rdl_block_numbers::ref_item;
use rdl_feeds::{count, feed, gate, mask, source};
use rdl_fields::has;
use rdl_layers::Props;
use rdl_nodes::Row;
use rdl_props::Prop;
use rdl_refs::Refs;

/// A tree: its settings, its references, its rows, and the numbers of its nodes in the lists of their kinds.
#[derive(Clone, Copy)]
pub struct NumberedTree<'t, 'a> {
    pub props: &'t Props<'a>,
    pub refs: &'t Refs<'a>,
    pub rows: &'t [Row<'a>],
    pub own: &'t [u32],
}

/// The item that a property names.
fn item_of(known: NumberedTree<'_, '_>, node: u32, prop: Prop) -> Option<RefItem>
    requires known { IsNumberedTree known }
    requires node { node < known.props.now.count }
    ensures { (n : Instance) → slice_get (nodes_of known.entry.props.now) node ≡ Some n → result ≡ feeds.item_at (lineages_of known.entry.props.now) n prop }
{
    ref_item(known.refs, known.rows, known.own, node, prop)
}

/// What feeds a property.
pub(crate) fn feed_of(known: NumberedTree<'_, '_>, node: u32, prop: Prop) -> Feed
    requires known { IsNumberedTree known }
    requires node { node < known.props.now.count }
    ensures { (n : Instance) → slice_get (nodes_of known.entry.props.now) node ≡ Some n → result ≡ feeds.feed_at (lineages_of known.entry.props.now) n prop }
{
    let item = item_of(known, node, prop);
    feed(known.props, node, prop, item)
}

/// What lets an effect through, by a property that does where it is 1, and one that does where it is 0.
pub(crate) fn gate_of(known: NumberedTree<'_, '_>, node: u32, high: Prop, low: Prop) -> Gate
    requires known { IsNumberedTree known }
    requires node { node < known.props.now.count }
    ensures { (n : Instance) → slice_get (nodes_of known.entry.props.now) node ≡ Some n → result ≡ feeds.gate_at (lineages_of known.entry.props.now) n high low }
{
    let high_item = item_of(known, node, high);
    let low_item = item_of(known, node, low);
    gate(known.props, node, high, low, high_item, low_item)
}

/// Which bits count, by a property that lets bits through, and one that takes them.
pub(crate) fn mask_of(known: NumberedTree<'_, '_>, node: u32, enable: Prop, masked: Prop) -> Mask
    requires known { IsNumberedTree known }
    requires node { node < known.props.now.count }
    ensures { (n : Instance) → slice_get (nodes_of known.entry.props.now) node ≡ Some n → result ≡ feeds.mask_at (lineages_of known.entry.props.now) n enable masked }
{
    mask(item_of(known, node, enable), item_of(known, node, masked))
}

/// What a field loads.
pub(crate) fn source_of(known: NumberedTree<'_, '_>, node: u32) -> Feed
    requires known { IsNumberedTree known }
    requires node { node < known.props.now.count }
    ensures { (n : Instance) → slice_get (nodes_of known.entry.props.now) node ≡ Some n → result ≡ feeds.source_of (lineages_of known.entry.props.now) n }
{
    let next = item_of(known, node, Prop::Next);
    source(known.props, node, next)
}

/// How a field of this width in bits counts, if it is a counter.
pub(crate) fn count_of(known: NumberedTree<'_, '_>, node: u32, width: u8) -> Option<Count>
    requires known { IsNumberedTree known }
    requires node { node < known.props.now.count }
    requires width { width ≤ 64 }
    requires narrow { (n : Instance) → slice_get (nodes_of known.props.now) node ≡ Some n → AreNarrow n }
    ensures { (n : Instance) → slice_get (nodes_of known.entry.props.now) node ≡ Some n → width ≡ width_of n → result ≡ feeds.when_some (settings.is_counter n) (feeds.count_of (lineages_of known.entry.props.now) n) }
{
    if !has(known.props, node, Prop::Counter) {
        return None;
    }
    let count = count(known.props, known.refs, known.rows, known.own, node, width);
    Some(count)
}
