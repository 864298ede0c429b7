//! A second reset signal in a body.

ghost use Rattle.std.specs.Prelude.{◌≡◌, ◌<◌, List, OnOk};
ghost use Rattle.std.specs.List.{All};
ghost use Rattle.rdl_tree.specs.declared.node.Node.{out-Node};
ghost use Rattle.rdl_values.specs.Instances.{Instance};
ghost use Rattle.rdl_failures.specs.Noted.{with_all};
ghost use Rattle.rdl_rules.specs.ReferenceRules.{second_reset};
ghost use Rattle.rdl_reset_rules.specs.Said.{AreSaid};

use crate::signal::is_field_reset;
use rb_base::NoMemory;
use rdl_base::Rule;
use rdl_failures::Failures;
use rdl_layers::Props;
use rdl_tree::Node;

/// Puts in R8 of the nodes in a body. The only error is want of memory.
pub fn judge_second_resets(
    props: &Props<'_>,
    nodes: &[Node<'_>],
    failures: &mut Failures,
) -> Result<(), NoMemory>
    requires { All (λ r. (out-Node r).id < props.now.count) nodes.now }
    ensures { OnOk result ((ns : List Instance) → AreSaid props.now nodes.now ns → failures.new ≡ with_all (second_reset ns) failures.old) }
{
    let mut found = false;
    for node in nodes {
        let resets = is_field_reset(props, node);
        failures.note(found & resets, Rule::R8, node.place)?;
        found = found | resets;
    }
    Ok(())
}
