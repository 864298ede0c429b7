//! The access widths of registers, for a bus of 32 data bits.

ghost use Rattle.std.specs.Prelude.{◌≡◌, IfOk, OnOk, flat_map};
ghost use Rattle.rdl_values.specs.Elaborated.{nodes_of};
ghost use Rattle.rdl_values.specs.Elaboration.{IsClean};
ghost use Rattle.rdl_values.specs.Verdict.{IsListOf};
ghost use Rattle.rdl_failures.specs.Noted.{with_all};
ghost use Rattle.rdl_nodes.specs.Rows.{AreRows};
ghost use Rattle.rdl_rules.specs.Answers.{access_fails};
ghost use Rattle.rdl_rules.specs.Phase7.{narrow_register};

use rb_base::NoMemory;
use rdl_addr::number;
use rdl_base::{Fault, Rule};
use rdl_failures::{Failures, collected_once};
use rdl_layers::Props;
use rdl_nodes::{Row, rows};
use rdl_props::Prop;
use rdl_tree::Elab;
use std::alloc::Global;

// Puts in X1 of the registers of a tree, of which these are the rows.
fn judge_accesses(
    props: &Props<'_>,
    rows: &[Row<'_>],
    failures: &mut Failures,
) -> Result<(), NoMemory>
    requires clean { IsClean props.now }
    requires rows { AreRows props.now rows.now }
    ensures { OnOk result (failures.new ≡ with_all (flat_map narrow_register (nodes_of props.now)) failures.old) }
{
    for at in 0..rows.len() {
        let row = &rows[at];
        let node = row.node;
        let is_whole = number(props, node.id, Prop::Accesswidth) == 32;
        let is_narrow = node.kind.is_register() & !is_whole;
        failures.note(is_narrow, Rule::X1, node.place)?;
    }
    Ok(())
}

/// All failures of X1 of a tree: the registers that a bus of 32 data bits doesn't access 32 bits at once, by place. The only error
/// is want of memory.
pub fn access_failures(
    alloc: Global,
    props: &Props<'_>,
    elab: &Elab<'_>,
) -> Result<Vec<Fault>, NoMemory>
    requires clean { IsClean elab.now }
    requires props { props.now ≡ elab.now }
    ensures { IfOk result (λ list. IsListOf (access_fails elab.now) list.items) }
{
    collected_once();
    let rows = rows(alloc, elab)?;
    let mut failures = Failures::new(alloc);
    judge_accesses(props, &rows, &mut failures)?;
    let list = failures.into_list(alloc)?;
    Ok(list)
}
