//! The references of all fields.

ghost use Rattle.std.specs.Prelude.{◌≡◌, [], cond, OnOk, filter, flat_map};
ghost use Rattle.rdl_tree.specs.declared.item.Kind.TheVariants as kinds;
ghost use Rattle.rdl_props.specs.Table.{reference_props};
ghost use Rattle.rdl_values.specs.Elaborated.{nodes_of};
ghost use Rattle.rdl_values.specs.Instances.{Instance};
ghost use Rattle.rdl_values.specs.Lineages.{lineages_of};
ghost use Rattle.rdl_failures.specs.Noted.{with_all};
ghost use Rattle.rdl_layers.specs.Fields.{is_a};
ghost use Rattle.rdl_rules.specs.ReferenceRules.{bad_target};
ghost use Rattle.rdl_reset_rules.specs.Known.{AreKnown};
ghost use Rattle.rdl_reset_rules.specs.Said.{IsSaid};

use rb_base::NoMemory;
use rdl_failures::Failures;
use rdl_layers::Props;
use rdl_nodes::Row;
use rdl_ref_items::InterruptOutputs;
use rdl_refs::Refs;
use rdl_reset_rules::judge_references;
use rdl_rules::Fact;
use rdl_tree::Node;

/// The rules on the references of a node, where it is a field.
fn judge_one(
    props: &Props<'_>,
    refs: &Refs<'_>,
    rows: &[Row<'_>],
    facts: &[Fact],
    marks: &[InterruptOutputs],
    node: &Node<'_>,
    failures: &mut Failures,
) -> Result<(), NoMemory>
    requires known { AreKnown props.now rows.now facts.now marks.now }
    requires refs { refs.now ≡ props.now }
    requires node { (n : Instance) × IsSaid props.now node.now n }
    ensures { OnOk result ((n : Instance) → IsSaid props.now node.now n → failures.new ≡ with_all (cond (is_a kinds.Field n) (flat_map (bad_target (lineages_of props.now) n) reference_props) []) failures.old) }
{
    if !node.kind.is_field() {
        return Ok(());
    }
    judge_references(props, refs, rows, facts, marks, node.id, failures)?;
    Ok(())
}

/// Puts in R3 to R5 of the references of all fields of a tree, of which these are the rows, the facts and the marks. The only error is
/// want of memory.
pub fn judge_all_references(
    props: &Props<'_>,
    refs: &Refs<'_>,
    rows: &[Row<'_>],
    facts: &[Fact],
    marks: &[InterruptOutputs],
    failures: &mut Failures,
) -> Result<(), NoMemory>
    requires known { AreKnown props.now rows.now facts.now marks.now }
    requires refs { refs.now ≡ props.now }
    ensures { OnOk result (failures.new ≡ with_all (flat_map (λ n. flat_map (bad_target (lineages_of props.now) n) reference_props) (filter (is_a kinds.Field) (nodes_of props.now))) failures.old) }
{
    for at in 0..rows.len() {
        let row = &rows[at];
        judge_one(props, refs, rows, facts, marks, row.node, failures)?;
    }
    Ok(())
}
