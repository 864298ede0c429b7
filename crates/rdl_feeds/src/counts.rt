//! Counters.

ghost use Rattle.std.specs.Prelude.{◌≡◌, ◌<◌, ◌≤◌, ℕ, Some, slice_get};
ghost use Rattle.rdl_props.specs.declared.prop.Prop.TheVariants as properties;
ghost use Rattle.rdl_values.specs.Elaborated.{nodes_of};
ghost use Rattle.rdl_values.specs.Elaboration.{IsClean};
ghost use Rattle.rdl_values.specs.Instances.{Instance};
ghost use Rattle.rdl_values.specs.Lineages.{lineages_of};
ghost use Rattle.rdl_layers.specs.Fields as fields;
ghost use Rattle.rdl_layers.specs.Phase4.{width_of};
ghost use Rattle.rdl_layers.specs.Settings.{number, setting};
ghost use Rattle.rdl_nodes.specs.Rows.{AreRows};
ghost use Rattle.rdl_rules.specs.Feeds as feeds;
ghost use Rattle.rdl_block_numbers.specs.Numbers.{AreOwn};
ghost use Rattle.rdl_feeds.specs.Narrow.{AreNarrow};

use crate::amounts::{amount, level_or};
use crate::counting::{level, pulse};
use rb_effects::ones;
use rb_model::{Count, Level, Part};
use rdl_block_numbers::ref_item;
use rdl_fields::has_one_of;
use rdl_layers::Props;
use rdl_nodes::Row;
use rdl_props::Prop;
use rdl_refs::Refs;

/// Whether a counter counts down.
fn has_down(props: &Props<'_>, node: u32) -> bool
    requires { node < props.now.count }
    ensures { (n : Instance) → slice_get (nodes_of props.now) node ≡ Some n → result ≡ fields.has_down n }
{
    let list = [Prop::Decr, Prop::Decrvalue, Prop::Decrwidth];
    has_one_of(props, node, &list)
}

/// Whether it counts up.
fn has_up(props: &Props<'_>, node: u32) -> bool
    requires { node < props.now.count }
    ensures { (n : Instance) → slice_get (nodes_of props.now) node ≡ Some n → result ≡ fields.has_up n }
{
    let list = [Prop::Incr, Prop::Incrvalue, Prop::Incrwidth];
    has_one_of(props, node, &list) || !has_down(props, node)
}

/// One direction of a counter, by the properties of its pulse, its value and its width.
fn part(
    props: &Props<'_>,
    refs: &Refs<'_>,
    rows: &[Row<'_>],
    own: &[u32],
    node: u32,
    of: (Prop, Prop, Prop),
) -> Part
    requires clean { IsClean props.now }
    requires refs { refs.now ≡ props.now }
    requires rows { AreRows props.now rows.now }
    requires own { AreOwn props.now own.now }
    requires node { node < props.now.count }
    requires narrow { (n : Instance) (w : ℕ) → slice_get (nodes_of props.now) node ≡ Some n → setting n of.2 ≡ number w → w < 256 }
    ensures { (n : Instance) → slice_get (nodes_of props.now) node ≡ Some n → result ≡ feeds.part_at (lineages_of props.now) n of.0 of.1 of.2 }
{
    let (given, value, width) = of;
    let from = ref_item(refs, rows, own, node, given);
    let by = ref_item(refs, rows, own, node, value);
    Part {
        pulse: pulse(from),
        amount: amount(props, node, value, width, by),
    }
}

/// A level of a counter, which is this number where it is just true.
fn level_by(
    props: &Props<'_>,
    refs: &Refs<'_>,
    rows: &[Row<'_>],
    own: &[u32],
    node: u32,
    prop: Prop,
    plain: u64,
) -> Option<Level>
    requires clean { IsClean props.now }
    requires refs { refs.now ≡ props.now }
    requires rows { AreRows props.now rows.now }
    requires own { AreOwn props.now own.now }
    requires node { node < props.now.count }
    ensures { (n : Instance) → slice_get (nodes_of props.now) node ≡ Some n → result ≡ feeds.level_at (lineages_of props.now) n prop plain }
{
    let item = ref_item(refs, rows, own, node, prop);
    level(props, node, prop, plain, item)
}

/// How a counter counts up.
fn up(props: &Props<'_>, refs: &Refs<'_>, rows: &[Row<'_>], own: &[u32], node: u32) -> Option<Part>
    requires clean { IsClean props.now }
    requires refs { refs.now ≡ props.now }
    requires rows { AreRows props.now rows.now }
    requires own { AreOwn props.now own.now }
    requires node { node < props.now.count }
    requires narrow { (n : Instance) (w : ℕ) → slice_get (nodes_of props.now) node ≡ Some n → setting n properties.Incrwidth ≡ number w → w < 256 }
    ensures { (n : Instance) → slice_get (nodes_of props.now) node ≡ Some n → result ≡ feeds.when_some (fields.has_up n) (feeds.part_at (lineages_of props.now) n properties.Incr properties.Incrvalue properties.Incrwidth) }
{
    if !has_up(props, node) {
        return None;
    }
    let of = (Prop::Incr, Prop::Incrvalue, Prop::Incrwidth);
    Some(part(props, refs, rows, own, node, of))
}

/// How a counter counts down.
fn down(
    props: &Props<'_>,
    refs: &Refs<'_>,
    rows: &[Row<'_>],
    own: &[u32],
    node: u32,
) -> Option<Part>
    requires clean { IsClean props.now }
    requires refs { refs.now ≡ props.now }
    requires rows { AreRows props.now rows.now }
    requires own { AreOwn props.now own.now }
    requires node { node < props.now.count }
    requires narrow { (n : Instance) (w : ℕ) → slice_get (nodes_of props.now) node ≡ Some n → setting n properties.Decrwidth ≡ number w → w < 256 }
    ensures { (n : Instance) → slice_get (nodes_of props.now) node ≡ Some n → result ≡ feeds.when_some (fields.has_down n) (feeds.part_at (lineages_of props.now) n properties.Decr properties.Decrvalue properties.Decrwidth) }
{
    if !has_down(props, node) {
        return None;
    }
    let of = (Prop::Decr, Prop::Decrvalue, Prop::Decrwidth);
    Some(part(props, refs, rows, own, node, of))
}

/// How the counter of this number counts, of this width in bits, in a tree of which these are the rows and the numbers of nodes in the
/// lists of their kinds.
pub fn count(
    props: &Props<'_>,
    refs: &Refs<'_>,
    rows: &[Row<'_>],
    own: &[u32],
    node: u32,
    width: u8,
) -> Count
    requires clean { IsClean props.now }
    requires refs { refs.now ≡ props.now }
    requires rows { AreRows props.now rows.now }
    requires own { AreOwn props.now own.now }
    requires node { node < props.now.count }
    requires width { width ≤ 64 }
    requires narrow { (n : Instance) → slice_get (nodes_of props.now) node ≡ Some n → AreNarrow n }
    ensures { (n : Instance) → slice_get (nodes_of props.now) node ≡ Some n → width ≡ width_of n → result ≡ feeds.count_of (lineages_of props.now) n }
{
    let most = ones(width);
    let above = level_by(props, refs, rows, own, node, Prop::Incrthreshold, most);
    let below = level_by(props, refs, rows, own, node, Prop::Decrthreshold, 0);
    Count {
        up: up(props, refs, rows, own, node),
        down: down(props, refs, rows, own, node),
        high: level_by(props, refs, rows, own, node, Prop::Incrsaturate, most),
        low: level_by(props, refs, rows, own, node, Prop::Decrsaturate, 0),
        above: level_or(above, most),
        below: level_or(below, 0),
    }
}
