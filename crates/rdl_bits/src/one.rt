//! A register where it stands.

ghost use Rattle.std.specs.Prelude.{◌≡◌, ◌<◌, ◌∷◌, List, Some, slice_get};
ghost use Rattle.std.specs.List.{All};
ghost use Rattle.rdl_tree.specs.declared.node.Node.{Node as AnyNode, out-Node};
ghost use Rattle.rdl_values.specs.Elaborated.{Says};
ghost use Rattle.rdl_values.specs.Lineages.{Lineage, lineages_of};
ghost use Rattle.rdl_values.specs.Instances.{children};
ghost use Rattle.rdl_nodes.specs.Rows.{AreInside};
ghost use Rattle.rdl_layout.specs.Registers as spec;
ghost use Rattle.rdl_bits.specs.Found.{IsNumbersOf};

use rdl_addr::{number, register_side};
use rdl_layers::Props;
use rdl_layout::Register;
use rdl_props::Prop;
use rdl_tree::{Kind, Node};

/// What a register's settings and fields say of it, at an address.
pub(crate) fn numbers_of(props: &Props<'_>, node: &Node<'_>, address: u128) -> Register
    requires here { (out-Node node.now).id < props.now.count }
    requires within { All (λ r. (out-Node r).id < props.now.count) (out-Node node.now).children.now }
    ensures { (beside : List AnyNode) (l : Lineage) → slice_get (lineages_of props.now) (out-Node node.now).id ≡ Some l → Says beside node.now l.node
        → AreInside (lineages_of props.now) (l.node ∷ l.ancestors) (out-Node node.now).children.now (out-Node node.now).children.now (children l.node) → IsNumbersOf result l.node address }
{
    let regwidth = number(props, node.id, Prop::Regwidth);
    Register {
        place: node.place,
        address,
        size: regwidth / 8,
        regwidth,
        accesswidth: number(props, node.id, Prop::Accesswidth),
        side: register_side(props, node.children),
    }
}
