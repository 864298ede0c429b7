//! What the interrupt and the halt of a register are made from.

ghost use Rattle.std.specs.Prelude.{◌≡◌, ◌++◌, ◌&&◌, cond, List, [], OnOk, Some, filter, flat_map, slice_get, true};
ghost use Rattle.rdl_tree.specs.declared.item.Kind.TheVariants as kinds;
ghost use Rattle.rdl_tree.specs.declared.node.Node.{out-Node};
ghost use Rattle.rdl_values.specs.Elaborated.{nodes_of};
ghost use Rattle.rdl_values.specs.Instances.{Instance, children, kind_of};
ghost use Rattle.rdl_values.specs.Lineages.{lineages_of};
ghost use Rattle.rdl_layers.specs.Fields as fields;
ghost use Rattle.rdl_layers.specs.Fields.{fields_of, is_a};
ghost use Rattle.rdl_nodes.specs.Rows.{AreInside};
ghost use Rattle.rdl_refs.specs.Follows.{masked_items};
ghost use Rattle.rdl_refs.specs.Items.{Item};
ghost use Rattle.rdl_bind.specs.Known.{IsBoundTree, numbers_of};

use crate::known::{BoundTree, add_with};
use rb_base::NoMemory;
use rdl_fields::has_one_of;
use rdl_props::Prop;
use rdl_tree::Node;

/// Adds the numbers of a node's value and of its masks, where it is a field that has one of these properties.
fn add_if(
    known: BoundTree<'_, '_>,
    node: &Node<'_>,
    list_of: &[Prop],
    masks: &[Prop],
    list: &mut Vec<usize>,
) -> Result<(), NoMemory>
    requires known { IsBoundTree known }
    requires node { (c : Instance) × (slice_get (nodes_of known.props.now) (out-Node node.now).id ≡ Some c) × ((out-Node node.now).kind ≡ kind_of c) }
    ensures { OnOk result ((i : Item) (c : Instance) → slice_get (nodes_of known.entry.props.now) (out-Node node.now).id ≡ Some c
        → list.new.items ≡ list.old.items ++ numbers_of known.entry.props.now (cond (is_a kinds.Field c && fields.has_one_of list_of.now c) (masked_items (lineages_of known.entry.props.now) masks.now i c) [])) }
{
    if node.kind.is_field() && has_one_of(known.props, node.id, list_of) {
        return add_with(known, node.id, masks, list);
    }
    Ok(())
}

/// Does so for all nodes in a register.
pub(crate) fn add_fields(
    known: BoundTree<'_, '_>,
    nodes: &[Node<'_>],
    list_of: &[Prop],
    masks: &[Prop],
    list: &mut Vec<usize>,
) -> Result<(), NoMemory>
    requires known { IsBoundTree known }
    requires nodes { (n : Instance) × (up : List Instance) × AreInside (lineages_of known.props.now) up nodes.now nodes.now (children n) }
    ensures { OnOk result ((i : Item) (up : List Instance) → AreInside (lineages_of known.entry.props.now) up nodes.now nodes.now (children i.node)
        → list.new.items ≡ list.old.items ++ numbers_of known.entry.props.now (flat_map (masked_items (lineages_of known.entry.props.now) masks.now i) (filter (fields.has_one_of list_of.now) (fields_of i.node)))) }
{
    for node in nodes {
        add_if(known, node, list_of, masks, list)?;
    }
    Ok(())
}
