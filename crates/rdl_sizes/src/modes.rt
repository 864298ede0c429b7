//! The mode in the body of each node.

ghost use Rattle.std.specs.Prelude.{◌≡◌, IfOk, length};
ghost use Rattle.rdl_values.specs.Elaboration.{IsClean};
ghost use Rattle.rdl_nodes.specs.Rows.{AreRows};
ghost use Rattle.rdl_sizes.specs.Modes.{AreModes, IsBelow, outer_at};

use rb_base::NoMemory;
use rdl_addr::mode_inside;
use rdl_layers::Props;
use rdl_layout::Mode;
use rdl_nodes::Row;
use std::alloc::Global;

/// The mode round a node that stands in the one of this number: that of the nearest address map.
fn outer_mode(modes: &[Mode], parent: Option<u32>) -> Mode
    requires { IsBelow (length modes.now) parent }
    ensures { result ≡ outer_at modes.now parent }
{
    match parent {
        Some(parent) => modes[parent as usize],
        None => Mode::Regalign,
    }
}

/// The mode in which the children of each node are placed, node by node (SystemRDL 2.0, 13.4).
pub(crate) fn modes_of(
    alloc: Global,
    props: &Props<'_>,
    rows: &[Row<'_>],
) -> Result<Vec<Mode>, NoMemory>
    requires clean { IsClean props.now }
    requires rows { AreRows props.now rows.now }
    ensures many { IfOk result (λ ms. length ms.items ≡ length rows.now) }
    ensures modes { IfOk result (λ ms. AreModes props.now ms.items) }
{
    let mut modes = Vec::new(alloc);
    for row in rows {
        let outer = outer_mode(&modes, row.parent);
        modes.push(mode_inside(props, row.node.kind, row.node.id, outer))?;
    }
    Ok(modes)
}
