//! The fields of a block, register by register.

ghost use Rattle.std.specs.Prelude.{◌≡◌, ◌∷◌, ◌++◌, [], List, IfOk, OnOk, Some, cond, length, slice_get};
ghost use Rattle.rdl_tree.specs.declared.item.Kind.TheVariants as kinds;
ghost use Rattle.rdl_tree.specs.declared.node.Elab.{Elab};
ghost use Rattle.rdl_tree.specs.declared.node.Node.{out-Node};
ghost use Rattle.rdl_values.specs.Elaborated.{nodes_of};
ghost use Rattle.rdl_values.specs.Elaboration.{IsClean};
ghost use Rattle.rdl_values.specs.Instances.{Instance, kind_of};
ghost use Rattle.rdl_values.specs.Lineages.{Lineage};
ghost use Rattle.rdl_nodes.specs.Rows.{AreRows};
ghost use Rattle.rdl_layers.specs.Fields.{is_a};
ghost use Rattle.rdl_open_bodies.specs.Spots.{IsOpenTree};
ghost use Rattle.rdl_rules.specs.Numbers.{all_fields};
ghost use Rattle.rdl_facts.specs.Told.{AreTold};
ghost use Rattle.rdl_encodings.specs.Encoded.{encodings_of as of_fields};
ghost use Rattle.rdl_encodings.specs.Numbered.{AreNumbered};
ghost use Rattle.rdl_encodings.specs.Standing.{IsRowOf, IsScene, own_fields};

use crate::enums::Enums;
use crate::meant::{enum_of, enums_for};
use crate::numbering::Numbering;
use encodings::Encodings;
use rb_base::NoMemory;
use rdl_fields::primary;
use rdl_layers::PropSetting;
use rdl_nodes::Row;
use rdl_open_bodies::OpenTree;
use rdl_tree::{Kind, Node};
use std::alloc::Global;

// Puts in a node, where it is a field.
fn add_field<'a>(
    alloc: Global,
    tree: &OpenTree<'_, 'a>,
    enums: &Enums<'a>,
    entries: &[Vec<PropSetting<'a>>],
    node: &Node<'a>,
    numbering: &mut Numbering<'a>,
) -> Result<(), NoMemory>
    ensures { OnOk result ((e : Elab) (n : Instance) (fs : List Instance) → IsScene e tree.now enums.now entries.now → slice_get (nodes_of e) (out-Node node.now).id ≡ Some n → (out-Node node.now).kind ≡ kind_of n → AreNumbered numbering.old enums.now fs
        → AreNumbered numbering.new enums.now (fs ++ cond (is_a kinds.Field n) (n ∷ []) [])) }
{
    if node.kind != Kind::Field {
        return Ok(());
    }
    let Some(list) = entries.get(node.id as usize) else {
        return Ok(());
    };
    let at = enum_of(tree, enums, list);
    numbering.add(alloc, enums, &at)?;
    Ok(())
}

// Puts in the fields of a node, where it is a register that is no alias.
fn add_fields<'a>(
    alloc: Global,
    tree: &OpenTree<'_, 'a>,
    enums: &Enums<'a>,
    entries: &[Vec<PropSetting<'a>>],
    row: &Row<'a>,
    numbering: &mut Numbering<'a>,
) -> Result<(), NoMemory>
    ensures { OnOk result ((e : Elab) (l : Lineage) (fs : List Instance) → IsScene e tree.now enums.now entries.now → IsRowOf e row.now l → AreNumbered numbering.old enums.now fs → AreNumbered numbering.new enums.now (fs ++ own_fields l.node)) }
{
    if !row.node.kind.is_register() {
        return Ok(());
    }
    if primary(row).is_some() {
        return Ok(());
    }
    for child in row.node.children {
        add_field(alloc, tree, enums, entries, child, numbering)?;
    }
    Ok(())
}

/// The enumerations by which the fields of a block are encoded, in the order of the fields, of a tree of which no rule on settings
/// fails: from the rows of its nodes, the open bodies, and what decides the properties of each node. Where no node has an `encode`
/// it looks at no enumeration. The only error is want of memory.
pub fn encodings_of<'a>(
    alloc: Global,
    rows: &[Row<'a>],
    tree: &OpenTree<'_, 'a>,
    entries: &[Vec<PropSetting<'a>>],
) -> Result<Encodings<'a>, NoMemory>
    requires { length rows.now ≡ length entries.now }
    ensures { IfOk result (λ r. (e : Elab) → IsClean e → AreRows e rows.now → IsOpenTree e tree.now → AreTold e entries.now → r ≡ of_fields (all_fields (nodes_of e))) }
{
    let enums = enums_for(alloc, tree, entries)?;
    let mut numbering = Numbering::new(alloc);
    for row in rows {
        add_fields(alloc, tree, &enums, entries, row, &mut numbering)?;
    }
    Ok(numbering.into_encodings())
}
