//! The views of one register.

ghost use Rattle.std.specs.Prelude.{◌≡◌, ◌∷◌, ◌++◌, [], ◌<◌, cond, IfOk, OnOk, Some, map, slice_get};
ghost use Rattle.rdl_tree.specs.declared.item.Kind.TheVariants as kinds;
ghost use Rattle.rdl_tree.specs.declared.node.Node.{out-Node};
ghost use Rattle.rdl_values.specs.Instances.{Instance, kind_of};
ghost use Rattle.rdl_values.specs.Lineages.{Lineage, child_of, lineages_of};
ghost use Rattle.rdl_layers.specs.Fields as settings;
ghost use Rattle.rdl_layers.specs.Fields.{fields_of, is_a};
ghost use Rattle.rdl_block_numbers.specs.Numbers.{AreViewed};
ghost use Rattle.rdl_block_numbers.specs.Texts.{AreTexts};
ghost use Rattle.rdl_rules.specs.Fields as fields;
ghost use Rattle.rdl_block_fields.specs.Known.{IsNumberedTree};
ghost use Rattle.rdl_block_lists.specs.Standing.{IsRowOf};

use rb_base::{NoMemory, Text};
use rb_model::View;
use rdl_block_fields::{NumberedTree, view};
use rdl_block_numbers::PathTexts;
use rdl_fields::primary;
use rdl_nodes::Row;
use rdl_tree::Node;
use std::alloc::Global;

/// Adds a node, where it is a field, in a register that is an alias or not. The only error is want of memory.
fn add_view(
    alloc: Global,
    known: NumberedTree<'_, '_>,
    viewed: &[u32],
    texts: &PathTexts,
    node: &Node<'_>,
    is_alias: bool,
    list: &mut Vec<View>,
) -> Result<(), NoMemory>
    requires known { IsNumberedTree known }
    requires viewed { AreViewed known.props.now viewed.now }
    requires texts { AreTexts known.props.now texts.now }
    requires node { (out-Node node.now).id < known.props.now.count }
    ensures { OnOk result ((l : Lineage) (v : Instance) → slice_get (lineages_of known.entry.props.now) (out-Node node.now).id ≡ Some (child_of l v) → (out-Node node.now).kind ≡ kind_of v → is_alias ≡ settings.is_alias l.node
        → list.new.items ≡ list.old.items ++ cond (is_a kinds.Field v) (fields.view_of (lineages_of known.entry.props.now) l.node v ∷ []) []) }
{
    if !node.kind.is_field() {
        return Ok(());
    }
    let at = node.id as usize;
    let bytes = Vec::from_slice(alloc, texts.text(at))?;
    let path = Text { bytes };
    list.push(view(known, node.id, path, viewed[at], is_alias))?;
    Ok(())
}

/// Adds the fields of the register of a row. The only error is want of memory.
pub(crate) fn add_views(
    alloc: Global,
    known: NumberedTree<'_, '_>,
    viewed: &[u32],
    texts: &PathTexts,
    row: &Row<'_>,
    list: &mut Vec<View>,
) -> Result<(), NoMemory>
    requires known { IsNumberedTree known }
    requires viewed { AreViewed known.props.now viewed.now }
    requires texts { AreTexts known.props.now texts.now }
    requires row { (l : Lineage) × IsRowOf known.props.now row.now l }
    ensures { OnOk result ((l : Lineage) → IsRowOf known.entry.props.now row.now l → list.new.items ≡ list.old.items ++ map (fields.view_of (lineages_of known.entry.props.now) l.node) (fields_of l.node)) }
{
    let is_alias = primary(row).is_some();
    for child in row.node.children {
        add_view(alloc, known, viewed, texts, child, is_alias, list)?;
    }
    Ok(())
}
