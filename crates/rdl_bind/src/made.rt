//! What one item refers to.

ghost use Rattle.std.specs.Prelude.{◌≡◌, ◌++◌, IfOk, OnOk, false};
ghost use Rattle.rdl_values.specs.Lineages.{lineages_of};
ghost use Rattle.rdl_refs.specs.Follows.{is_in_alias as in_alias, made_from, refers_to};
ghost use Rattle.rdl_refs.specs.Items.{Item};
ghost use Rattle.rdl_bind.specs.Known.{IsItem, IsBoundTree, numbers_of};

use crate::fields::add_wire;
use crate::given_items::add_given;
use crate::known::{BoundTree, add_value, add_with, targets_of};
use crate::registers::add_fields;
use rb_base::NoMemory;
use rdl_props::Prop;
use rdl_ref_items::{is_in_alias, is_missing};
use rdl_refs::{ItemOf, What};
use std::alloc::Global;

static INTERRUPTS: [Prop; 1] = [Prop::Intr];

static INTERRUPT_MASKS: [Prop; 2] = [Prop::Enable, Prop::Mask];

static HALT_MASKS: [Prop; 2] = [Prop::Haltenable, Prop::Haltmask];

static COUNTS: [Prop; 4] = [Prop::Incr, Prop::Decr, Prop::Incrvalue, Prop::Decrvalue];

static INCR_THRESHOLD: [Prop; 1] = [Prop::Incrthreshold];

static DECR_THRESHOLD: [Prop; 1] = [Prop::Decrthreshold];

/// Adds the numbers of the items that one is made from, where it isn't in an alias.
fn add_made(known: BoundTree<'_, '_>, item: ItemOf, list: &mut Vec<usize>) -> Result<(), NoMemory>
    requires known { IsBoundTree known }
    requires item { (i : Item) × IsItem known.props.now i item }
    ensures { OnOk result ((i : Item) → IsItem known.entry.props.now i item → in_alias i ≡ false → list.new.items ≡ list.old.items ++ numbers_of known.entry.props.now (made_from (lineages_of known.entry.props.now) i)) }
{
    let node = item.node;
    match item.what {
        What::Value => add_wire(known, item, list),
        What::Anded => add_value(known, node, list),
        What::Ored => add_value(known, node, list),
        What::Xored => add_value(known, node, list),
        What::IncrThreshold => add_with(known, node, &INCR_THRESHOLD, list),
        What::DecrThreshold => add_with(known, node, &DECR_THRESHOLD, list),
        What::Overflow => add_given(targets_of(known.targets, node), &COUNTS, list),
        What::Underflow => add_given(targets_of(known.targets, node), &COUNTS, list),
        What::SwMod => Ok(()),
        What::SwAcc => Ok(()),
        What::Intr => {
            let inside = known.rows[node as usize].node.children;
            add_fields(known, inside, &INTERRUPTS, &INTERRUPT_MASKS, list)
        }
        What::Halt => {
            let inside = known.rows[node as usize].node.children;
            add_fields(known, inside, &HALT_MASKS, &HALT_MASKS, list)
        }
    }
}

/// The numbers of the items that one refers to.
pub(crate) fn edges_from(
    alloc: Global,
    known: BoundTree<'_, '_>,
    item: ItemOf,
) -> Result<Vec<usize>, NoMemory>
    requires known { IsBoundTree known }
    requires item { (i : Item) × IsItem known.props.now i item }
    ensures { IfOk result (λ list. (i : Item) → IsItem known.entry.props.now i item → list.items ≡ numbers_of known.entry.props.now (refers_to (lineages_of known.entry.props.now) i)) }
{
    let mut list = Vec::new(alloc);
    if is_missing(known.props, known.marks, item) {
        return Ok(list);
    }
    if is_in_alias(known.rows, item) {
        return Ok(list);
    }
    add_made(known, item, &mut list)?;
    Ok(list)
}
