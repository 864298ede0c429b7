//! The reset signals of all nodes.

ghost use Rattle.std.specs.Prelude.{◌≡◌, ◌++◌, OnOk, flat_map};
ghost use Rattle.rdl_values.specs.Elaborated.{nodes_of};
ghost use Rattle.rdl_values.specs.Elaboration.{IsClean};
ghost use Rattle.rdl_values.specs.Instances.{children, signals};
ghost use Rattle.rdl_values.specs.Lineages.{lineages_of};
ghost use Rattle.rdl_failures.specs.Noted.{with_all};
ghost use Rattle.rdl_nodes.specs.Rows.{AreRows};
ghost use Rattle.rdl_refs.specs.Answers.{IsBound};
ghost use Rattle.rdl_rules.specs.Facts.{AreFacts};
ghost use Rattle.rdl_rules.specs.ReferenceRules.{second_reset, wide_reset};

use rb_base::NoMemory;
use rdl_failures::Failures;
use rdl_layers::Props;
use rdl_nodes::Row;
use rdl_refs::Refs;
use rdl_reset_rules::{judge_second_resets, judge_wide_resets};
use rdl_rules::Fact;
use rdl_tree::Elab;

/// Puts in R6 of all nodes of a tree and R8 of their bodies. The only error is want of memory.
pub fn judge_all_resets(
    props: &Props<'_>,
    refs: &Refs<'_>,
    rows: &[Row<'_>],
    facts: &[Fact],
    failures: &mut Failures,
) -> Result<(), NoMemory>
    requires clean { IsClean props.now }
    requires bound { IsBound props.now }
    requires refs { refs.now ≡ props.now }
    requires rows { AreRows props.now rows.now }
    requires facts { AreFacts props.now facts.now }
    ensures { OnOk result (failures.new ≡ with_all (flat_map (λ n. wide_reset (lineages_of props.now) n ++ second_reset (children n)) (nodes_of props.now)) failures.old) }
{
    for at in 0..rows.len() {
        let row = &rows[at];
        let node = row.node;
        judge_wide_resets(props, refs, rows, facts, node, failures)?;
        judge_second_resets(props, node.children, failures)?;
    }
    Ok(())
}

/// Puts in R8 of the signals at the root. The only error is want of memory.
pub fn judge_root_resets(
    elab: &Elab<'_>,
    props: &Props<'_>,
    failures: &mut Failures,
) -> Result<(), NoMemory>
    requires clean { IsClean elab.now }
    requires props { props.now ≡ elab.now }
    ensures { OnOk result (failures.new ≡ with_all (second_reset (signals elab.now.source.now)) failures.old) }
{
    judge_second_resets(props, elab.signals, failures)?;
    Ok(())
}
