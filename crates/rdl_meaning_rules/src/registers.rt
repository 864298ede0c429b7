//! All registers.

ghost use Rattle.std.specs.Prelude.{◌≡◌, ◌<◌, [], OnOk, cond, flat_map, length, Some, slice_get};
ghost use Rattle.rdl_tree.specs.declared.item.Kind.TheVariants as kinds;
ghost use Rattle.rdl_values.specs.Elaborated.{nodes_of};
ghost use Rattle.rdl_values.specs.Elaboration.{IsClean};
ghost use Rattle.rdl_values.specs.Instances.{Instance};
ghost use Rattle.rdl_failures.specs.Noted.{with_all};
ghost use Rattle.rdl_layers.specs.Answers.{IsSettled};
ghost use Rattle.rdl_layers.specs.Fields.{is_a};
ghost use Rattle.rdl_nodes.specs.Rows.{AreRows};
ghost use Rattle.rdl_rules.specs.Facts.{AreFacts};
ghost use Rattle.rdl_rules.specs.Numbers.{registers};
ghost use Rattle.rdl_field_rules.specs.Judged.{register_failures};

use rb_base::NoMemory;
use rdl_addr::Map;
use rdl_failures::Failures;
use rdl_field_rules::judge_register;
use rdl_layers::Props;
use rdl_nodes::Row;
use rdl_rules::Fact;
use std::alloc::Global;

/// The rules on the node of a number, where it is a register.
fn judge_one(
    alloc: Global,
    props: &Props<'_>,
    map: &Map<'_>,
    rows: &[Row<'_>],
    facts: &[Fact],
    at: u32,
    failures: &mut Failures,
) -> Result<(), NoMemory>
    requires clean { IsClean props.now }
    requires settled { IsSettled props.now }
    requires map { map.now ≡ props.now }
    requires rows { AreRows props.now rows.now }
    requires facts { AreFacts props.now facts.now }
    requires within { at < length rows.now }
    ensures { OnOk result ((n : Instance) → slice_get (nodes_of props.now) at ≡ Some n → failures.new ≡ with_all (cond (is_a kinds.Reg n) (register_failures (nodes_of props.now) n) []) failures.old) }
{
    let row = &rows[at as usize];
    if !row.node.kind.is_register() {
        return Ok(());
    }
    judge_register(alloc, props, map, rows, facts, at, failures)?;
    Ok(())
}

/// Puts in F1 to F14 of all registers of a tree, of which these are the rows and the facts. The only error is want of memory.
pub fn judge_registers(
    alloc: Global,
    props: &Props<'_>,
    map: &Map<'_>,
    rows: &[Row<'_>],
    facts: &[Fact],
    failures: &mut Failures,
) -> Result<(), NoMemory>
    requires clean { IsClean props.now }
    requires settled { IsSettled props.now }
    requires map { map.now ≡ props.now }
    requires rows { AreRows props.now rows.now }
    requires facts { AreFacts props.now facts.now }
    ensures { OnOk result (failures.new ≡ with_all (flat_map (register_failures (nodes_of props.now)) (registers (nodes_of props.now))) failures.old) }
{
    for at in 0..rows.len() {
        let row = &rows[at];
        judge_one(alloc, props, map, rows, facts, row.node.id, failures)?;
    }
    Ok(())
}
