//! The rules on one register.

ghost use Rattle.std.specs.Prelude.{◌≡◌, OnOk, Some, slice_get, true};
ghost use Rattle.rdl_tree.specs.declared.item.Kind.TheVariants as kinds;
ghost use Rattle.rdl_tree.specs.declared.node.Node.{out-Node};
ghost use Rattle.rdl_values.specs.Elaborated.{nodes_of};
ghost use Rattle.rdl_values.specs.Elaboration.{IsClean};
ghost use Rattle.rdl_values.specs.Lineages.{Lineage, lineages_of};
ghost use Rattle.rdl_failures.specs.Noted.{with_all};
ghost use Rattle.rdl_layers.specs.Answers.{IsSettled};
ghost use Rattle.rdl_layers.specs.Fields.{is_a};
ghost use Rattle.rdl_nodes.specs.Rows.{AreRows, IsRow};
ghost use Rattle.rdl_rules.specs.Facts.{AreFacts};
ghost use Rattle.rdl_addr.specs.Bits.{bits_of};
ghost use Rattle.rdl_fields.specs.Views.{AreViewsOf};
ghost use Rattle.rdl_field_rules.specs.Judged.{own_failures, register_failures};

use crate::aliases::judge_alias;
use crate::fields::{judge_fields, judge_views};
use rb_base::NoMemory;
use rdl_addr::{Map, number};
use rdl_base::Rule;
use rdl_failures::Failures;
use rdl_fields::{View, primary, views_in};
use rdl_layers::Props;
use rdl_nodes::Row;
use rdl_props::Prop;
use rdl_rules::Fact;
use std::alloc::Global;

/// Puts in what a register fails as an alias, or what its fields do where it is none.
fn judge_own(
    alloc: Global,
    props: &Props<'_>,
    map: &Map<'_>,
    rows: &[Row<'_>],
    facts: &[Fact],
    row: &Row<'_>,
    views: &[View<'_>],
    failures: &mut Failures,
) -> Result<(), NoMemory>
    requires clean { IsClean props.now }
    requires map { map.now ≡ props.now }
    requires rows { AreRows props.now rows.now }
    requires facts { AreFacts props.now facts.now }
    requires row { (l : Lineage) × (slice_get (lineages_of props.now) (out-Node row.now.node.now).id ≡ Some l) × IsRow props.now (lineages_of props.now) (out-Node row.now.node.now).id row.now l × AreViewsOf props.now views.now (bits_of l.node) }
    ensures { OnOk result ((l : Lineage) → slice_get (lineages_of props.now) (out-Node row.now.node.now).id ≡ Some l → failures.new ≡ with_all (own_failures (nodes_of props.now) l.node) failures.old) }
{
    let Some(other) = primary(row) else {
        judge_fields(props, facts, views, failures)?;
        return Ok(());
    };
    let node = row.node;
    let of = &rows[other as usize];
    let others = views_in(alloc, map, of.node)?;
    judge_alias(props, node.id, node.place, views, other, &others, failures)?;
    Ok(())
}

/// Puts in F1 to F14 of the register of this number and of its fields, in a tree of which these are the rows and the facts. The only
/// error is want of memory.
pub fn judge_register(
    alloc: Global,
    props: &Props<'_>,
    map: &Map<'_>,
    rows: &[Row<'_>],
    facts: &[Fact],
    at: u32,
    failures: &mut Failures,
) -> Result<(), NoMemory>
    requires clean { IsClean props.now }
    requires settled { IsSettled props.now }
    requires map { map.now ≡ props.now }
    requires rows { AreRows props.now rows.now }
    requires facts { AreFacts props.now facts.now }
    requires register { (l : Lineage) × (slice_get (lineages_of props.now) at ≡ Some l) × (is_a kinds.Reg l.node ≡ true) }
    ensures { OnOk result ((l : Lineage) → slice_get (lineages_of props.now) at ≡ Some l → failures.new ≡ with_all (register_failures (nodes_of props.now) l.node) failures.old) }
{
    let row = &rows[at as usize];
    let node = row.node;
    let views = views_in(alloc, map, node)?;
    let access = number(props, node.id, Prop::Accesswidth);
    judge_views(props, facts, &views, access, failures)?;
    judge_own(alloc, props, map, rows, facts, row, &views, failures)?;
    let is_empty = views.is_empty();
    failures.note(is_empty, Rule::F14, node.place)?;
    Ok(())
}
