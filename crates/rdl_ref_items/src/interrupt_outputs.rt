//! The marks of all nodes.

ghost use Rattle.std.specs.Prelude.{◌≡◌, ◌<◌, List, IfOk};
ghost use Rattle.std.specs.List.{All};
ghost use Rattle.rdl_tree.specs.declared.node.Node.{out-Node};
ghost use Rattle.rdl_values.specs.Elaboration.{IsClean};
ghost use Rattle.rdl_values.specs.Instances.{Instance, children};
ghost use Rattle.rdl_values.specs.Lineages.{lineages_of};
ghost use Rattle.rdl_nodes.specs.Rows.{AreInside, AreRows};
ghost use Rattle.rdl_ref_items.specs.InterruptOutputs.{AreInterruptOutputs, IsInterruptOutputs};

use crate::fields::has_field_with;
use rb_base::NoMemory;
use rdl_layers::Props;
use rdl_nodes::Row;
use rdl_props::Prop;
use rdl_tree::Node;
use std::alloc::Global;

/// What a register has for others to refer to.
#[derive(Clone, Copy, Debug)]
pub struct InterruptOutputs {
    /// It has an interrupt field.
    pub interrupts: bool,
    /// It has a field that is enabled or masked for halt.
    pub halts: bool,
}

/// The mark of a register, of which these are the nodes in it.
fn mark_of(props: &Props<'_>, nodes: &[Node<'_>]) -> InterruptOutputs
    requires { All (λ r. (out-Node r).id < props.now.count) nodes.now }
    ensures { (n : Instance) (up : List Instance) → AreInside (lineages_of props.now) up nodes.now nodes.now (children n) → IsInterruptOutputs result n }
{
    let interrupt = [Prop::Intr];
    let halt = [Prop::Haltenable, Prop::Haltmask];
    InterruptOutputs {
        interrupts: has_field_with(props, nodes, &interrupt),
        halts: has_field_with(props, nodes, &halt),
    }
}

/// The marks of all nodes of a tree, of which these are the rows, each at its number. The only error is want of memory.
pub fn marks(
    alloc: Global,
    props: &Props<'_>,
    rows: &[Row<'_>],
) -> Result<Vec<InterruptOutputs>, NoMemory>
    requires clean { IsClean props.now }
    requires rows { AreRows props.now rows.now }
    ensures { IfOk result (λ ms. AreInterruptOutputs props.now ms.items) }
{
    let mut marks = Vec::new(alloc);
    for at in 0..rows.len() {
        let row = &rows[at];
        marks.push(mark_of(props, row.node.children))?;
    }
    Ok(marks)
}
