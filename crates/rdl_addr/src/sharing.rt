//! What software does with the fields of a register.

ghost use Rattle.std.specs.Prelude.{◌≡◌, ◌<◌, List, Some, slice_get};
ghost use Rattle.std.specs.List.{All, list_any};
ghost use Rattle.rdl_tree.specs.declared.node.Node.{out-Node};
ghost use Rattle.rdl_values.specs.Elaborated.{nodes_of};
ghost use Rattle.rdl_values.specs.Instances.{Instance, children};
ghost use Rattle.rdl_values.specs.Lineages.{lineages_of};
ghost use Rattle.rdl_layers.specs.Fields.{fields_of};
ghost use Rattle.rdl_nodes.specs.Rows.{AreInside};
ghost use Rattle.rdl_addr.specs.Uses as uses;
ghost use Rattle.rdl_addr.specs.Uses.{used};

use crate::settings::{changes, gives, takes};
use rdl_layers::Props;
use rdl_layout::Side;
use rdl_tree::Node;

/// What software may do with a field.
#[derive(Clone, Copy, Debug, PartialEq, Eq)]
enum Use {
    /// A read gives its value.
    Read,
    /// A write has an effect.
    Written,
    /// A read changes it.
    ChangedByRead,
}

/// Whether software does this with a field.
fn is_used(props: &Props<'_>, node: u32, how: Use) -> bool
    requires { node < props.now.count }
    ensures { (n : Instance) → slice_get (nodes_of props.now) node ≡ Some n → result ≡ used how n }
{
    match how {
        Use::Read => gives(props, node),
        Use::Written => takes(props, node),
        Use::ChangedByRead => changes(props, node),
    }
}

/// Whether software does this with some field among the nodes in a register.
fn is_any_used(props: &Props<'_>, nodes: &[Node<'_>], how: Use) -> bool
    requires { All (λ r. (out-Node r).id < props.now.count) nodes.now }
    ensures { (n : Instance) (ancestors : List Instance) → AreInside (lineages_of props.now) ancestors nodes.now nodes.now (children n) → result ≡ list_any (used how) (fields_of n) }
{
    for node in nodes {
        if node.kind.is_field() && is_used(props, node.id, how) {
            return true;
        }
    }
    false
}

/// What software does with a register of which it reads some field, writes one, and changes one by a read.
fn side_by(is_read: bool, is_written: bool, is_changed: bool) -> Side
    ensures { result ≡ uses.side_by is_read is_written is_changed }
{
    match (is_read, is_written, is_changed) {
        (true, false, _) => Side::Reads,
        (false, true, false) => Side::Writes,
        _ => Side::Other,
    }
}

/// What software does with a register, of which these are the nodes in it.
pub fn register_side(props: &Props<'_>, nodes: &[Node<'_>]) -> Side
    requires { All (λ r. (out-Node r).id < props.now.count) nodes.now }
    ensures { (n : Instance) (ancestors : List Instance) → AreInside (lineages_of props.now) ancestors nodes.now nodes.now (children n) → result ≡ uses.register_side n }
{
    let is_read = is_any_used(props, nodes, Use::Read);
    let is_written = is_any_used(props, nodes, Use::Written);
    let is_changed = is_any_used(props, nodes, Use::ChangedByRead);
    side_by(is_read, is_written, is_changed)
}
