//! The views of a block, register by register.

ghost use Rattle.std.specs.Prelude.{◌≡◌, ◌++◌, [], cond, IfOk, OnOk, map};
ghost use Rattle.rdl_tree.specs.declared.item.Kind.TheVariants as kinds;
ghost use Rattle.rdl_values.specs.Lineages.{Lineage, lineages_of};
ghost use Rattle.rdl_layers.specs.Fields.{fields_of, is_a};
ghost use Rattle.rdl_block_numbers.specs.Numbers.{AreViewed};
ghost use Rattle.rdl_block_numbers.specs.Texts.{AreTexts};
ghost use Rattle.rdl_rules.specs.Block as blocks;
ghost use Rattle.rdl_rules.specs.Fields.{view_of};
ghost use Rattle.rdl_block_fields.specs.Known.{IsNumberedTree};
ghost use Rattle.rdl_block_lists.specs.Standing.{IsRowOf};

use crate::register::add_views;
use crate::room::count_of;
use rb_base::NoMemory;
use rb_model::View;
use rdl_block_fields::NumberedTree;
use rdl_block_numbers::PathTexts;
use rdl_nodes::Row;
use rdl_tree::Kind;
use std::alloc::Global;

/// Adds the fields of a node, where it is a register. The only error is want of memory.
fn add_register(
    alloc: Global,
    known: NumberedTree<'_, '_>,
    viewed: &[u32],
    texts: &PathTexts,
    row: &Row<'_>,
    list: &mut Vec<View>,
) -> Result<(), NoMemory>
    requires known { IsNumberedTree known }
    requires viewed { AreViewed known.props.now viewed.now }
    requires texts { AreTexts known.props.now texts.now }
    requires row { (l : Lineage) × IsRowOf known.props.now row.now l }
    ensures { OnOk result ((l : Lineage) → IsRowOf known.entry.props.now row.now l → list.new.items ≡ list.old.items ++ cond (is_a kinds.Reg l.node) (map (view_of (lineages_of known.entry.props.now) l.node) (fields_of l.node)) []) }
{
    if !row.node.kind.is_register() {
        return Ok(());
    }
    add_views(alloc, known, viewed, texts, row, list)?;
    Ok(())
}

/// The views of a block, by what is known of its tree, by the number of the field that each field is a view of, and by the path texts
/// of all nodes. The only error is want of memory. Takes time in proportion to the number of nodes.
pub fn views(
    alloc: Global,
    known: NumberedTree<'_, '_>,
    viewed: &[u32],
    texts: &PathTexts,
) -> Result<Vec<View>, NoMemory>
    requires known { IsNumberedTree known }
    requires viewed { AreViewed known.props.now viewed.now }
    requires texts { AreTexts known.props.now texts.now }
    ensures { IfOk result (λ vs. vs.items ≡ blocks.views (lineages_of known.entry.props.now)) }
{
    let mut list = Vec::with_capacity(alloc, count_of(known.rows, Kind::Field))?;
    for at in 0..known.rows.len() {
        let row = &known.rows[at];
        add_register(alloc, known, viewed, texts, row, &mut list)?;
    }
    Ok(list)
}
