//! How many fields there are.

ghost use Rattle.std.specs.Prelude.{◌≡◌, ◌+◌, ◌<◌, ◌^◌, OnOk, Some, cond, filter, length};
ghost use Rattle.rdl_tree.specs.declared.item.Kind.TheVariants as kinds;
ghost use Rattle.rdl_tree.specs.declared.node.Elab.{Elab as AnyElab};
ghost use Rattle.rdl_tree.specs.Kinds.{same_kind};
ghost use Rattle.rdl_values.specs.Elaborated.{nodes_of, top_name};
ghost use Rattle.rdl_values.specs.Elaboration.{IsClean};
ghost use Rattle.rdl_values.specs.Instances.{top_of};
ghost use Rattle.rdl_failures.specs.Noted.{with_all};
ghost use Rattle.rdl_layers.specs.Fields.{is_a};
ghost use Rattle.rdl_nodes.specs.Rows.{AreRows};
ghost use Rattle.rdl_rules.specs.RegisterRules.{too_many_fields};

use rb_base::NoMemory;
use rdl_base::Rule;
use rdl_failures::Failures;
use rdl_nodes::Row;
use rdl_tree::{Elab, Kind};

/// One more for a field.
fn counted(count: usize, kind: Kind) -> usize
    requires { count + 1 < 2 ^ 64 }
    ensures { result ≡ count + cond (same_kind kinds.Field kind) 1 0 }
{
    if kind.is_field() { count + 1 } else { count }
}

/// How many of the nodes are fields.
fn count_fields(rows: &[Row<'_>]) -> usize
    ensures { (e : AnyElab) → AreRows e rows.now → result ≡ length (filter (is_a kinds.Field) (nodes_of e)) }
{
    let mut count = 0;
    for row in rows {
        count = counted(count, row.node.kind);
    }
    count
}

/// Puts in F15 of a tree, of which these are the rows: more than 32,768 fields. The only error is want of memory.
pub fn judge_count(
    elab: &Elab<'_>,
    rows: &[Row<'_>],
    failures: &mut Failures,
) -> Result<(), NoMemory>
    requires clean { IsClean elab.now }
    requires rows { AreRows elab.now rows.now }
    ensures { OnOk result (failures.new ≡ with_all (too_many_fields (top_of (Some (top_name elab.now)) elab.now.source.now) (nodes_of elab.now)) failures.old) }
{
    let is_over = count_fields(rows) > 32_768;
    failures.note(is_over, Rule::F15, elab.top.place)?;
    Ok(())
}
