//! Signals that reset the fields round them.

ghost use Rattle.std.specs.Prelude.{◌≡◌, ◌<◌};
ghost use Rattle.rdl_tree.specs.declared.node.Node.{out-Node};
ghost use Rattle.rdl_values.specs.Instances.{Instance};
ghost use Rattle.rdl_rules.specs.Fields as fields;
ghost use Rattle.rdl_reset_rules.specs.Said.{IsSaid};

use rdl_fields::has;
use rdl_layers::Props;
use rdl_props::Prop;
use rdl_tree::{Kind, Node};

/// Whether a node is a signal with field_reset (SystemRDL 2.0, 8.2.1).
pub fn is_field_reset(props: &Props<'_>, node: &Node<'_>) -> bool
    requires { (out-Node node.now).id < props.now.count }
    ensures { (n : Instance) → IsSaid props.now node.now n → result ≡ fields.is_field_reset n }
{
    let is_signal = node.kind == Kind::Signal;
    let resets = has(props, node.id, Prop::FieldReset);
    is_signal & resets
}
