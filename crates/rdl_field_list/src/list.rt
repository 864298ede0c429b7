//! The fields of a block, register by register.

ghost use Rattle.std.specs.Prelude.{◌≡◌, ℕ, ◌+◌, ◌++◌, ◌<◌, ◌^◌, [], cond, IfOk, OnOk, Some, map, slice_get};
ghost use Rattle.rdl_tree.specs.declared.item.Kind.TheVariants as kinds;
ghost use Rattle.rdl_tree.specs.declared.node.Elab.{Elab as AnyElab};
ghost use Rattle.rdl_tree.specs.Kinds.{same_kind};
ghost use Rattle.rdl_values.specs.Elaboration.{IsClean};
ghost use Rattle.rdl_values.specs.Lineages.{Lineage, lineages_of};
ghost use Rattle.rdl_values.specs.Verdict.{IsListOf};
ghost use Rattle.rdl_layers.specs.Answers.{IsSettled};
ghost use Rattle.rdl_layers.specs.Fields.{fields_of};
ghost use Rattle.rdl_nodes.specs.Rows.{IsRow};
ghost use Rattle.rdl_refs.specs.Answers.{IsBound};
ghost use Rattle.rdl_rules.specs.Answers.{meaning_fails};
ghost use Rattle.rdl_rules.specs.Block as blocks;
ghost use Rattle.rdl_rules.specs.Fields.{field_of};
ghost use Rattle.rdl_rules.specs.Numbers.{Numbered};
ghost use Rattle.rdl_rules.specs.Facts.{AreFacts};
ghost use Rattle.rdl_block_numbers.specs.Listed as lists;
ghost use Rattle.rdl_block_numbers.specs.Texts.{AreTexts};
ghost use Rattle.rdl_block_fields.specs.Known.{IsNumberedTree};
ghost use Rattle.rdl_field_list.specs.Own.{AreNarrowFields, IsRowOf};
ghost use Rattle.rdl_field_list.specs.Tables.{AreTables};

use crate::laws::faultless_is_narrow;
use crate::register::add_fields;
use crate::tables::{FieldTables, once_fields, touched_fields};
use rb_base::NoMemory;
use rb_model::Field;
use rdl_block_fields::NumberedTree;
use rdl_block_numbers::PathTexts;
use rdl_fields::primary;
use rdl_nodes::Row;
use rdl_reset_rules::nearest_resets;
use rdl_rules::Fact;
use rdl_sound_laws::clean_is_faultless;
use rdl_tree::{Elab, Kind};
use std::alloc::Global;

/// Whether a node is a register that is no alias.
fn is_primary(row: &Row<'_>) -> bool
    ensures { (e : AnyElab) (k : ℕ) (l : Lineage) → IsClean e → slice_get (lineages_of e) k ≡ Some l → IsRow e (lineages_of e) k row.now l → result ≡ lists.is_primary l.node }
{
    row.node.kind.is_register() & !primary(row).is_some()
}

/// The number of the first register behind a node of this kind, where this is that of the first one from the node on.
fn next_number(kind: Kind, number: u32) -> u32
    requires { number + 1 < 2 ^ 32 }
    ensures { result ≡ number + cond (same_kind kinds.Reg kind) 1 0 }
{
    if kind.is_register() {
        number + 1
    } else {
        number
    }
}

/// Adds the fields of a node, where it is a register that is no alias, and has this number among the registers. The only error is want
/// of memory.
fn add_own(
    alloc: Global,
    known: NumberedTree<'_, '_>,
    tables: FieldTables<'_>,
    row: &Row<'_>,
    number: u32,
    list: &mut Vec<Field>,
) -> Result<(), NoMemory>
    requires known { IsNumberedTree known }
    requires bound { IsBound known.props.now }
    requires tables { AreTables known.props.now tables }
    requires narrow { AreNarrowFields known.props.now }
    requires row { (l : Lineage) × IsRowOf known.props.now row.now l }
    ensures { OnOk result ((r : Numbered Lineage) → IsRowOf known.entry.props.now row.now r.register → number ≡ r.number
        → list.new.items ≡ list.old.items ++ cond (lists.is_primary r.register.node) (map (field_of known.entry.props.now.source.now (lineages_of known.entry.props.now) r) (fields_of r.register.node)) []) }
{
    if !is_primary(row) {
        return Ok(());
    }
    add_fields(alloc, known, tables, row, number, list)?;
    Ok(())
}

// How many nodes are fields.
fn count_fields(rows: &[Row<'_>]) -> usize {
    let mut count: usize = 0;
    for row in rows {
        if row.node.kind.is_field() {
            count = count.saturating_add(1);
        }
    }
    count
}

/// The fields of a block, where this is known of all nodes. The only error is want of memory.
fn fields_by(
    alloc: Global,
    known: NumberedTree<'_, '_>,
    tables: FieldTables<'_>,
    count: u32,
) -> Result<Vec<Field>, NoMemory>
    requires known { IsNumberedTree known }
    requires bound { IsBound known.props.now }
    requires tables { AreTables known.props.now tables }
    requires narrow { AreNarrowFields known.props.now }
    requires count { count ≡ known.props.now.count }
    ensures { IfOk result (λ fs. fs.items ≡ blocks.fields known.entry.props.now.source.now (lineages_of known.entry.props.now)) }
{
    let mut list = Vec::with_capacity(alloc, count_fields(known.rows))?;
    let mut number = 0;
    for at in 0..count {
        let row = &known.rows[at as usize];
        add_own(alloc, known, tables, row, number, &mut list)?;
        number = next_number(row.node.kind, number);
    }
    Ok(list)
}

/// The fields of a block, by what is known of its tree, and by the facts and the path texts of all nodes. The only error is want of
/// memory. Takes time in proportion to the number of nodes.
pub fn fields<'a>(
    alloc: Global,
    elab: &Elab<'a>,
    known: NumberedTree<'_, 'a>,
    facts: &[Fact],
    texts: &PathTexts,
) -> Result<Vec<Field>, NoMemory>
    requires elab { known.props.now ≡ elab.now }
    requires known { IsNumberedTree known }
    requires settled { IsSettled elab.now }
    requires bound { IsBound elab.now }
    requires meaning { IsListOf (meaning_fails elab.now) [] }
    requires facts { AreFacts elab.now facts.now }
    requires texts { AreTexts elab.now texts.now }
    ensures { IfOk result (λ fs. fs.items ≡ blocks.fields elab.now.source.now (lineages_of elab.now)) }
{
    clean_is_faultless();
    faultless_is_narrow();
    let nearest = nearest_resets(alloc, elab, known.props, known.rows)?;
    let touched = touched_fields(alloc, elab, known)?;
    let once = once_fields(alloc, elab, known)?;
    let tables = FieldTables {
        facts,
        texts,
        nearest: &nearest,
        touched: &touched,
        once: &once,
    };
    let list = fields_by(alloc, known, tables, elab.count)?;
    Ok(list)
}
