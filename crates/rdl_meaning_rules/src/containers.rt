//! Containers without a register.

ghost use Rattle.std.specs.Prelude.{◌≡◌, OnOk, flat_map};
ghost use Rattle.rdl_tree.specs.declared.node.Elab.{Elab};
ghost use Rattle.rdl_values.specs.Elaborated.{nodes_of};
ghost use Rattle.rdl_failures.specs.Noted.{with_all};
ghost use Rattle.rdl_nodes.specs.Rows.{AreRows};
ghost use Rattle.rdl_rules.specs.RegisterRules.{empty_container};

use crate::filled::filled_nodes;
use rb_base::NoMemory;
use rdl_base::Rule;
use rdl_failures::Failures;
use rdl_nodes::Row;
use std::alloc::Global;

/// Puts in F14 of the address maps and register files of a tree, of which these are the rows. The only error is want of memory.
pub fn judge_containers(
    alloc: Global,
    rows: &[Row<'_>],
    failures: &mut Failures,
) -> Result<(), NoMemory>
    requires { (e : Elab) × AreRows e rows.now }
    ensures { OnOk result ((e : Elab) → AreRows e rows.now → failures.new ≡ with_all (flat_map empty_container (nodes_of e)) failures.old) }
{
    let filled = filled_nodes(alloc, rows)?;
    for at in 0..rows.len() {
        let row = &rows[at];
        let node = row.node;
        let is_empty = node.kind.is_container() & !filled[at];
        failures.note(is_empty, Rule::F14, node.place)?;
    }
    Ok(())
}
