//! Reset signals of more than one bit.

ghost use Rattle.std.specs.Prelude.{◌≡◌, ◌<◌, OnOk, Some, slice_get};
ghost use Rattle.rdl_tree.specs.declared.node.Node.{out-Node};
ghost use Rattle.rdl_values.specs.Elaborated.{nodes_of};
ghost use Rattle.rdl_values.specs.Elaboration.{IsClean};
ghost use Rattle.rdl_values.specs.Instances.{Instance};
ghost use Rattle.rdl_values.specs.Lineages.{lineages_of};
ghost use Rattle.rdl_failures.specs.Noted.{with_all};
ghost use Rattle.rdl_nodes.specs.Rows.{AreRows};
ghost use Rattle.rdl_refs.specs.Answers.{IsBound};
ghost use Rattle.rdl_rules.specs.Facts.{AreFacts};
ghost use Rattle.rdl_rules.specs.ReferenceRules.{wide_reset};
ghost use Rattle.rdl_reset_rules.specs.Said.{IsSaid, wide_named, wide_own};

use crate::signal::is_field_reset;
use rb_base::NoMemory;
use rdl_base::Rule;
use rdl_failures::Failures;
use rdl_layers::Props;
use rdl_nodes::Row;
use rdl_props::Prop;
use rdl_ref_items::named_item;
use rdl_refs::Refs;
use rdl_rules::Fact;
use rdl_tree::Node;

/// R6 of a node that is itself a reset signal.
fn judge_own(
    props: &Props<'_>,
    facts: &[Fact],
    node: &Node<'_>,
    failures: &mut Failures,
) -> Result<(), NoMemory>
    requires number { (out-Node node.now).id < props.now.count }
    requires facts { AreFacts props.now facts.now }
    ensures { OnOk result ((n : Instance) → IsSaid props.now node.now n → failures.new ≡ with_all (wide_own n) failures.old) }
{
    let resets = is_field_reset(props, node);
    let is_one = facts[node.id as usize].width == 1;
    failures.note(resets & !is_one, Rule::R6, node.place)?;
    Ok(())
}

/// R6 of the signal that a field's resetsignal names.
fn judge_named(
    props: &Props<'_>,
    refs: &Refs<'_>,
    rows: &[Row<'_>],
    facts: &[Fact],
    node: u32,
    failures: &mut Failures,
) -> Result<(), NoMemory>
    requires clean { IsClean props.now }
    requires bound { IsBound props.now }
    requires refs { refs.now ≡ props.now }
    requires rows { AreRows props.now rows.now }
    requires facts { AreFacts props.now facts.now }
    requires node { (n : Instance) × (slice_get (nodes_of props.now) node ≡ Some n) }
    ensures { OnOk result ((n : Instance) → slice_get (nodes_of props.now) node ≡ Some n → failures.new ≡ with_all (wide_named (lineages_of props.now) n) failures.old) }
{
    let Some(item) = named_item(refs, node, Prop::Resetsignal) else {
        return Ok(());
    };
    let row = &rows[item.node as usize];
    let is_one = facts[item.node as usize].width == 1;
    failures.note(!is_one, Rule::R6, row.node.place)?;
    Ok(())
}

/// Puts in R6 of a node: where it is a reset signal, and of the signal that its resetsignal names. The only error is want of memory.
pub fn judge_wide_resets(
    props: &Props<'_>,
    refs: &Refs<'_>,
    rows: &[Row<'_>],
    facts: &[Fact],
    node: &Node<'_>,
    failures: &mut Failures,
) -> Result<(), NoMemory>
    requires clean { IsClean props.now }
    requires bound { IsBound props.now }
    requires refs { refs.now ≡ props.now }
    requires rows { AreRows props.now rows.now }
    requires facts { AreFacts props.now facts.now }
    requires node { (n : Instance) × IsSaid props.now node.now n }
    ensures { OnOk result ((n : Instance) → IsSaid props.now node.now n → failures.new ≡ with_all (wide_reset (lineages_of props.now) n) failures.old) }
{
    judge_own(props, facts, node, failures)?;
    judge_named(props, refs, rows, facts, node.id, failures)?;
    Ok(())
}
