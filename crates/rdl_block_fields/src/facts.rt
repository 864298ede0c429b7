//! A field of a register that is no alias.

ghost use Rattle.std.specs.Prelude.{◌≡◌, ◌<◌, ◌≤◌, Some, slice_get};
ghost use Rattle.rdl_values.specs.Elaborated.{nodes_of};
ghost use Rattle.rdl_values.specs.Instances.{Instance};
ghost use Rattle.rdl_values.specs.Lineages.{Lineage, lineages_of};
ghost use Rattle.rdl_rules.specs.Fields as fields;
ghost use Rattle.rdl_rules.specs.Numbers.{Numbered};
ghost use Rattle.rdl_feeds.specs.Narrow.{AreNarrow};
ghost use Rattle.rdl_block_fields.specs.Known.{AreFieldFacts, IsNumberedTree};

use crate::classes::class;
use crate::feeding::{NumberedTree, count_of, feed_of, gate_of, mask_of, source_of};
use rb_base::Text;
use rb_model::{Field, ResetBy, Shows};
use rdl_field_kinds::{hardware_first, latch, reset_value};
use rdl_fields::{hardware_reads, hardware_writes, has};
use rdl_props::Prop;

/// What is known of a field beside its settings: its path's text, its register's number in the block, its width in bits, what resets it,
/// its outputs of one bit, whether software touches it through one of its views, and whether one of these is written once.
#[derive(Drop)]
pub struct FieldFacts {
    pub path: Text,
    pub register: u32,
    pub width: u8,
    pub reset_by: ResetBy,
    pub shown: Shows,
    pub is_touched: bool,
    pub is_once: bool,
}

/// The field of this number in the block, where these are the facts of it.
pub fn field(known: NumberedTree<'_, '_>, node: u32, facts: FieldFacts) -> Field
    requires known { IsNumberedTree known }
    requires node { node < known.props.now.count }
    requires width { facts.width ≤ 64 }
    requires narrow { (n : Instance) → slice_get (nodes_of known.props.now) node ≡ Some n → AreNarrow n }
    ensures { (r : Numbered Lineage) (f : Instance) → slice_get (nodes_of known.entry.props.now) node ≡ Some f → AreFieldFacts known.entry.props.now r f facts → result ≡ fields.field_of known.entry.props.now.source.now (lineages_of known.entry.props.now) r f }
{
    let props = known.props;
    Field {
        path: facts.path,
        reg: facts.register,
        width: facts.width,
        reset: reset_value(props, node),
        reset_by: facts.reset_by,
        class: class(props, node, facts.is_touched),
        hw_writes: hardware_writes(props, node),
        hw_reads: hardware_reads(props, node),
        hw_first: hardware_first(props, node),
        source: source_of(known, node),
        gate: gate_of(known, node, Prop::We, Prop::Wel),
        count: count_of(known, node, facts.width),
        latch: latch(props, node),
        set: feed_of(known, node, Prop::Hwset),
        clear: feed_of(known, node, Prop::Hwclr),
        keep: mask_of(known, node, Prop::Hwenable, Prop::Hwmask),
        pulse: has(props, node, Prop::Singlepulse),
        once: facts.is_once,
        enable: mask_of(known, node, Prop::Enable, Prop::Mask),
        halt: mask_of(known, node, Prop::Haltenable, Prop::Haltmask),
        shown: facts.shown,
    }
}
