//! The references of one node.

ghost use Rattle.std.specs.Prelude.{◌≡◌, ◌<◌, OnOk, Some, flat_map, slice_get, true};
ghost use Rattle.rdl_props.specs.Table as table;
ghost use Rattle.rdl_values.specs.Elaborated.{nodes_of};
ghost use Rattle.rdl_values.specs.Instances.{Instance, kind_of};
ghost use Rattle.rdl_values.specs.Lineages.{lineages_of};
ghost use Rattle.rdl_values.specs.Parts.{is_unit};
ghost use Rattle.rdl_layers.specs.Settings.{setting};
ghost use Rattle.rdl_failures.specs.Noted.{with_all};
ghost use Rattle.rdl_refs.specs.Items.{Item};
ghost use Rattle.rdl_ref_items.specs.Named.{IsItemAt};
ghost use Rattle.rdl_rules.specs.ReferenceRules.{bad_target};
ghost use Rattle.rdl_reset_rules.specs.Judged.{TellsPlace, of_item};
ghost use Rattle.rdl_reset_rules.specs.Known.{AreKnown};

use crate::fitting::{fits, item_width};
use rb_base::{NoMemory, Place};
use rdl_base::Rule;
use rdl_failures::Failures;
use rdl_layers::{Props, Setting};
use rdl_nodes::Row;
use rdl_props::{Prop, reference_props};
use rdl_ref_items::{InterruptOutputs, is_in_alias, is_missing, named_item};
use rdl_refs::{ItemOf, Refs};
use rdl_rules::Fact;

/// R3 to R5 of an item that a property of a field of this width names, by a text at the place.
fn judge_item(
    props: &Props<'_>,
    rows: &[Row<'_>],
    facts: &[Fact],
    marks: &[InterruptOutputs],
    prop: Prop,
    width: u64,
    place: Place,
    item: ItemOf,
    failures: &mut Failures,
) -> Result<(), NoMemory>
    requires known { AreKnown props.now rows.now facts.now marks.now }
    requires item { (i : Item) × IsItemAt props.now i item }
    ensures { OnOk result ((i : Item) → IsItemAt props.now i item → failures.new ≡ with_all (of_item prop width place i) failures.old) }
{
    let is_other = !fits(prop, width, item_width(facts, item));
    let missing = is_missing(props, marks, item);
    let in_alias = is_in_alias(rows, item);
    failures.note(is_other, Rule::R3, place)?;
    failures.note(missing, Rule::R4, place)?;
    failures.note(in_alias, Rule::R5, place)?;
    Ok(())
}

/// The place of the text of a property's reference.
fn place_of(props: &Props<'_>, node: u32, prop: Prop) -> Option<Place>
    requires { node < props.now.count }
    ensures { (n : Instance) → slice_get (nodes_of props.now) node ≡ Some n → TellsPlace (setting n prop) result }
{
    match props.value(node, prop) {
        Setting::Ref { place, .. } => Some(place),
        _ => None,
    }
}

/// R3 to R5 of one property of a node.
fn judge_prop(
    props: &Props<'_>,
    refs: &Refs<'_>,
    rows: &[Row<'_>],
    facts: &[Fact],
    marks: &[InterruptOutputs],
    node: u32,
    prop: Prop,
    failures: &mut Failures,
) -> Result<(), NoMemory>
    requires known { AreKnown props.now rows.now facts.now marks.now }
    requires refs { refs.now ≡ props.now }
    requires node { (n : Instance) × (slice_get (nodes_of props.now) node ≡ Some n) × (is_unit (kind_of n) ≡ true) }
    ensures { OnOk result ((n : Instance) → slice_get (nodes_of props.now) node ≡ Some n → failures.new ≡ with_all (bad_target (lineages_of props.now) n prop) failures.old) }
{
    let Some(item) = named_item(refs, node, prop) else {
        return Ok(());
    };
    let Some(place) = place_of(props, node, prop) else {
        return Ok(());
    };
    let width = facts[node as usize].width;
    judge_item(
        props, rows, facts, marks, prop, width, place, item, failures,
    )?;
    Ok(())
}

/// Puts in R3 to R5 of the references of the field of this number. The only error is want of memory.
pub fn judge_references(
    props: &Props<'_>,
    refs: &Refs<'_>,
    rows: &[Row<'_>],
    facts: &[Fact],
    marks: &[InterruptOutputs],
    node: u32,
    failures: &mut Failures,
) -> Result<(), NoMemory>
    requires known { AreKnown props.now rows.now facts.now marks.now }
    requires refs { refs.now ≡ props.now }
    requires node { (n : Instance) × (slice_get (nodes_of props.now) node ≡ Some n) × (is_unit (kind_of n) ≡ true) }
    ensures { OnOk result ((n : Instance) → slice_get (nodes_of props.now) node ≡ Some n → failures.new ≡ with_all (flat_map (bad_target (lineages_of props.now) n) table.reference_props) failures.old) }
{
    let list = reference_props();
    for prop in &list {
        judge_prop(props, refs, rows, facts, marks, node, *prop, failures)?;
    }
    Ok(())
}
