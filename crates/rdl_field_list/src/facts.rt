//! A field of a block, by what is known of all nodes.

ghost use Rattle.std.specs.Prelude.{◌≡◌, ◌<◌, ◌≤◌, true, IfOk, Some, slice_get};
ghost use Rattle.rdl_tree.specs.declared.item.Kind.TheVariants as kinds;
ghost use Rattle.rdl_values.specs.Elaborated.{nodes_of};
ghost use Rattle.rdl_values.specs.Instances.{Instance};
ghost use Rattle.rdl_values.specs.Lineages.{Lineage, lineages_of};
ghost use Rattle.rdl_layers.specs.Fields.{is_a};
ghost use Rattle.rdl_refs.specs.Answers.{IsBound};
ghost use Rattle.rdl_rules.specs.Fields as fields;
ghost use Rattle.rdl_rules.specs.Numbers.{Numbered};
ghost use Rattle.rdl_feeds.specs.Narrow.{AreNarrow};
ghost use Rattle.rdl_block_fields.specs.Known.{AreFieldFacts, IsNumberedTree};
ghost use Rattle.rdl_field_list.specs.Own.{IsOwn};
ghost use Rattle.rdl_field_list.specs.Tables.{AreTables};

use crate::tables::FieldTables;
use rb_base::{NoMemory, Text};
use rb_model::{Field, Shows};
use rdl_block_fields::{FieldFacts, NumberedTree, field};
use rdl_field_kinds::shown;
use rdl_reset_rules::reset_by;
use std::alloc::Global;

/// A width of at most 64 bits.
fn narrow(width: u64) -> u8
    requires { width ≤ 64 }
    ensures { result ≡ width }
{
    width as u8
}

/// The facts of the field of this number, in the node of another, which has a third among the registers. The only error is want of
/// memory.
fn facts_of(
    alloc: Global,
    known: NumberedTree<'_, '_>,
    tables: FieldTables<'_>,
    node: u32,
    register: u32,
    number: u32,
) -> Result<FieldFacts, NoMemory>
    requires known { IsNumberedTree known }
    requires bound { IsBound known.props.now }
    requires tables { AreTables known.props.now tables }
    requires node { node < known.props.now.count }
    requires register { register < known.props.now.count }
    ensures width { IfOk result (λ x. x.width ≤ 64) }
    ensures facts { IfOk result (λ x. (r : Numbered Lineage) (f : Instance) → IsOwn known.entry.props.now register node r.register f → is_a kinds.Field f ≡ true → number ≡ r.number → AreFieldFacts known.entry.props.now r f x) }
{
    let at = node as usize;
    let bytes = Vec::from_slice(alloc, tables.texts.text(at))?;
    let shown = shown(alloc, known.props, node)?;
    let fact = &tables.facts[at];
    let width = narrow(fact.width);
    let reset_by = reset_by(
        known.props,
        known.refs,
        known.own,
        tables.nearest,
        node,
        register,
    );
    Ok(FieldFacts {
        path: Text { bytes },
        register: number,
        width,
        reset_by,
        shown: Shows { items: shown },
        is_touched: tables.touched[at],
        is_once: tables.once[at],
    })
}

/// The field of this number in a block, in the node of another, which has a third among the registers. The only error is want of
/// memory.
pub(crate) fn field_at(
    alloc: Global,
    known: NumberedTree<'_, '_>,
    tables: FieldTables<'_>,
    node: u32,
    register: u32,
    number: u32,
) -> Result<Field, NoMemory>
    requires known { IsNumberedTree known }
    requires bound { IsBound known.props.now }
    requires tables { AreTables known.props.now tables }
    requires node { node < known.props.now.count }
    requires register { register < known.props.now.count }
    requires narrow { (n : Instance) → slice_get (nodes_of known.props.now) node ≡ Some n → AreNarrow n }
    ensures { IfOk result (λ x. (r : Numbered Lineage) (f : Instance) → IsOwn known.entry.props.now register node r.register f → is_a kinds.Field f ≡ true → number ≡ r.number → x ≡ fields.field_of known.entry.props.now.source.now (lineages_of known.entry.props.now) r f) }
{
    let facts = facts_of(alloc, known, tables, node, register, number)?;
    Ok(field(known, node, facts))
}
