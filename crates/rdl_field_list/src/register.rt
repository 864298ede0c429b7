//! The fields of one register.

ghost use Rattle.std.specs.Prelude.{◌≡◌, ◌∷◌, ◌++◌, [], ◌<◌, cond, OnOk, Some, map, slice_get, true};
ghost use Rattle.rdl_tree.specs.declared.item.Kind.TheVariants as kinds;
ghost use Rattle.rdl_tree.specs.declared.node.Node.{out-Node};
ghost use Rattle.rdl_tree.specs.Kinds.{same_kind};
ghost use Rattle.rdl_values.specs.Elaborated.{nodes_of};
ghost use Rattle.rdl_values.specs.Instances.{Instance, kind_of};
ghost use Rattle.rdl_values.specs.Lineages.{Lineage, lineages_of};
ghost use Rattle.rdl_layers.specs.Fields.{fields_of, is_a};
ghost use Rattle.rdl_refs.specs.Answers.{IsBound};
ghost use Rattle.rdl_rules.specs.Fields as fields;
ghost use Rattle.rdl_rules.specs.Numbers.{Numbered};
ghost use Rattle.rdl_feeds.specs.Narrow.{AreNarrow};
ghost use Rattle.rdl_block_fields.specs.Known.{IsNumberedTree};
ghost use Rattle.rdl_field_list.specs.Own.{AreNarrowFields, IsOwn, IsPrimaryRow};
ghost use Rattle.rdl_field_list.specs.Tables.{AreTables};

use crate::facts::field_at;
use crate::tables::FieldTables;
use rb_base::NoMemory;
use rb_model::Field;
use rdl_block_fields::NumberedTree;
use rdl_nodes::Row;
use rdl_tree::Node;
use std::alloc::Global;

/// Adds a node, where it is a field, in the node of a number, which has another among the registers. The only error is want of memory.
fn add_field(
    alloc: Global,
    known: NumberedTree<'_, '_>,
    tables: FieldTables<'_>,
    node: &Node<'_>,
    register: u32,
    number: u32,
    list: &mut Vec<Field>,
) -> Result<(), NoMemory>
    requires known { IsNumberedTree known }
    requires bound { IsBound known.props.now }
    requires tables { AreTables known.props.now tables }
    requires node { (out-Node node.now).id < known.props.now.count }
    requires register { register < known.props.now.count }
    requires narrow { same_kind kinds.Field (out-Node node.now).kind ≡ true → (n : Instance) → slice_get (nodes_of known.props.now) (out-Node node.now).id ≡ Some n → AreNarrow n }
    ensures { OnOk result ((r : Numbered Lineage) (f : Instance) → IsOwn known.entry.props.now register (out-Node node.now).id r.register f → (out-Node node.now).kind ≡ kind_of f → number ≡ r.number
        → list.new.items ≡ list.old.items ++ cond (is_a kinds.Field f) (fields.field_of known.entry.props.now.source.now (lineages_of known.entry.props.now) r f ∷ []) []) }
{
    if !node.kind.is_field() {
        return Ok(());
    }
    let field = field_at(alloc, known, tables, node.id, register, number)?;
    list.push(field)?;
    Ok(())
}

/// Adds the fields of the register of a row, which is no alias, and has this number among the registers. The only error is want of
/// memory.
pub(crate) fn add_fields(
    alloc: Global,
    known: NumberedTree<'_, '_>,
    tables: FieldTables<'_>,
    row: &Row<'_>,
    number: u32,
    list: &mut Vec<Field>,
) -> Result<(), NoMemory>
    requires known { IsNumberedTree known }
    requires bound { IsBound known.props.now }
    requires tables { AreTables known.props.now tables }
    requires narrow { AreNarrowFields known.props.now }
    requires row { (l : Lineage) × IsPrimaryRow known.props.now row.now l }
    ensures { OnOk result ((r : Numbered Lineage) → IsPrimaryRow known.entry.props.now row.now r.register → number ≡ r.number
        → list.new.items ≡ list.old.items ++ map (fields.field_of known.entry.props.now.source.now (lineages_of known.entry.props.now) r) (fields_of r.register.node)) }
{
    let node = row.node;
    for child in node.children {
        add_field(alloc, known, tables, child, node.id, number, list)?;
    }
    Ok(())
}
