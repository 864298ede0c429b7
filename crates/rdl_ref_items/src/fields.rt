//! Fields among the nodes in a body.

ghost use Rattle.std.specs.Prelude.{◌≡◌, ◌<◌, ◌&&◌, List, Some, slice_get};
ghost use Rattle.std.specs.List.{All, list_any};
ghost use Rattle.rdl_tree.specs.declared.item.Kind.TheVariants as kinds;
ghost use Rattle.rdl_tree.specs.declared.node.Node.{out-Node};
ghost use Rattle.rdl_values.specs.Elaborated.{nodes_of};
ghost use Rattle.rdl_values.specs.Instances.{Instance, children, kind_of};
ghost use Rattle.rdl_values.specs.Lineages.{lineages_of};
ghost use Rattle.rdl_layers.specs.Fields as fields;
ghost use Rattle.rdl_layers.specs.Fields.{fields_of, is_a};
ghost use Rattle.rdl_nodes.specs.Rows.{AreInside};

use rdl_fields::has_one_of;
use rdl_layers::Props;
use rdl_props::Prop;
use rdl_tree::{Kind, Node};

/// Whether a node is a field that has one of these properties.
fn is_field_with(props: &Props<'_>, node: &Node<'_>, list: &[Prop]) -> bool
    requires { (out-Node node.now).id < props.now.count }
    ensures { (c : Instance) → slice_get (nodes_of props.now) (out-Node node.now).id ≡ Some c → (out-Node node.now).kind ≡ kind_of c → result ≡ (is_a kinds.Field c && fields.has_one_of list.now c) }
{
    let is_field = node.kind == Kind::Field;
    let has_any = has_one_of(props, node.id, list);
    is_field & has_any
}

/// Whether one of the nodes in a register is.
pub(crate) fn has_field_with(props: &Props<'_>, nodes: &[Node<'_>], list: &[Prop]) -> bool
    requires { All (λ r. (out-Node r).id < props.now.count) nodes.now }
    ensures { (n : Instance) (up : List Instance) → AreInside (lineages_of props.now) up nodes.now nodes.now (children n) → result ≡ list_any (fields.has_one_of list.now) (fields_of n) }
{
    for node in nodes {
        if is_field_with(props, node, list) {
            return true;
        }
    }
    false
}
