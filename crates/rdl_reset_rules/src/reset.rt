//! What resets a field.

ghost use Rattle.std.specs.Prelude.{◌≡◌, ◌<◌, List, Some, slice_get};
ghost use Rattle.rdl_values.specs.Elaborated.{nodes_of};
ghost use Rattle.rdl_values.specs.Elaboration.{IsClean};
ghost use Rattle.rdl_values.specs.Instances.{Instance};
ghost use Rattle.rdl_values.specs.Lineages.{Lineage, child_of, lineages_of};
ghost use Rattle.rdl_refs.specs.Answers.{IsBound};
ghost use Rattle.rdl_rules.specs.Fields as fields;
ghost use Rattle.rdl_block_numbers.specs.Numbers.{AreOwn};
ghost use Rattle.rdl_reset_rules.specs.Nearest.{AreNearest, AreSignals, IsFirst, resets_of};

use crate::nearest::outer_of;
use rb_model::ResetBy;
use rdl_fields::has;
use rdl_layers::Props;
use rdl_props::Prop;
use rdl_ref_items::named_item;
use rdl_refs::{Refs, one_target};

/// The number of the signal that resets a field: the one that it names, or else the nearest round its register's fields.
fn signal_of(refs: &Refs<'_>, nearest: &[Option<u32>], node: u32, register: u32) -> Option<u32>
    requires clean { IsClean refs.now }
    requires nearest { AreNearest refs.now nearest.now }
    requires node { node < refs.now.count }
    requires register { register < refs.now.count }
    ensures { (l : Lineage) (f : Instance) → slice_get (lineages_of refs.now) register ≡ Some l → slice_get (nodes_of refs.now) node ≡ Some f → IsFirst refs.now (fields.reset_signals refs.now.source.now (lineages_of refs.now) (child_of l f)) result }
{
    match named_item(refs, node, Prop::Resetsignal) {
        Some(item) => Some(item.node),
        None => outer_of(nearest, Some(register), None),
    }
}

/// How a signal of this number, if there is one, resets fields: else the bus does.
fn resets(props: &Props<'_>, own: &[u32], signal: Option<u32>) -> ResetBy
    requires clean { IsClean props.now }
    requires own { AreOwn props.now own.now }
    requires signal { (ns : List Instance) × IsFirst props.now ns signal × AreSignals ns }
    ensures { (ns : List Instance) → IsFirst props.now ns signal → AreSignals ns → result ≡ resets_of (lineages_of props.now) ns }
{
    let Some(signal) = signal else {
        return ResetBy {
            signal: None,
            low: true,
            sync: false,
        };
    };
    let number = own[signal as usize];
    let low = has(props, signal, Prop::Activelow);
    let is_async = has(props, signal, Prop::Async);
    ResetBy {
        signal: Some(number),
        low,
        sync: !is_async,
    }
}

/// What resets the field of this number, in the register of another, in a tree of which these are the numbers of nodes in the lists of
/// their kinds and the nearest reset signals.
pub fn reset_by(
    props: &Props<'_>,
    refs: &Refs<'_>,
    own: &[u32],
    nearest: &[Option<u32>],
    node: u32,
    register: u32,
) -> ResetBy
    requires clean { IsClean props.now }
    requires bound { IsBound props.now }
    requires refs { refs.now ≡ props.now }
    requires own { AreOwn props.now own.now }
    requires nearest { AreNearest props.now nearest.now }
    requires node { node < props.now.count }
    requires register { register < props.now.count }
    ensures { (l : Lineage) (f : Instance) → slice_get (lineages_of props.now) register ≡ Some l → slice_get (nodes_of props.now) node ≡ Some f → result ≡ fields.reset_by props.now.source.now (lineages_of props.now) (child_of l f) }
{
    one_target();
    let signal = signal_of(refs, nearest, node, register);
    resets(props, own, signal)
}
