//! The sizes of all nodes, from the last to the first.

ghost use Rattle.std.specs.Prelude.{◌≡◌, ℕ, ◌+◌, ◌<◌, ◌∷◌, IfOk, OnOk, Some, length, slice_get};
ghost use Rattle.rdl_tree.specs.declared.node.Node.{out-Node};
ghost use Rattle.rdl_values.specs.Elaborated.{nodes_of};
ghost use Rattle.rdl_values.specs.Elaboration.{IsClean};
ghost use Rattle.rdl_values.specs.Instances.{Instance, kind_of};
ghost use Rattle.rdl_values.specs.Lineages.{Lineage, lineages_of};
ghost use Rattle.rdl_layers.specs.Answers.{IsSettled};
ghost use Rattle.rdl_nodes.specs.Rows.{AreRows, IsRow};
ghost use Rattle.rdl_addr.specs.Parts.{mode_of};
ghost use Rattle.rdl_sizes.specs.Levels.{mode_under};
ghost use Rattle.rdl_sizes.specs.Measuring.{IsUnknown, measured};
ghost use Rattle.rdl_sizes.specs.Sized.{AreSizes, AreSizesFrom};

use crate::body::{Laid, add_faults, lay_out};
use crate::gathering::lots_of;
use crate::known::{Measure, Sizes};
use crate::modes::modes_of;
use crate::writing::write_offsets;
use rb_base::NoMemory;
use rdl_addr::number;
use rdl_layers::Props;
use rdl_layout::Mode;
use rdl_nodes::Row;
use rdl_props::Prop;
use rdl_tree::Kind;
use std::alloc::Global;

/// The size of a node and its access width: of a register by its settings, else by what its body is laid out as.
fn measure(props: &Props<'_>, kind: Kind, node: u32, laid: &Laid) -> Measure
    requires { node < props.now.count }
    ensures { (n : Instance) → slice_get (nodes_of props.now) node ≡ Some n → kind ≡ kind_of n → result ≡ measured n laid.now.end laid.now.access }
{
    if kind == Kind::Reg {
        return Measure {
            size: u128::from(number(props, node, Prop::Regwidth) / 8),
            access: u128::from(number(props, node, Prop::Accesswidth) / 8),
        };
    }
    Measure {
        size: laid.end,
        access: laid.access,
    }
}

/// Takes up a node in whose body this mode is, and behind which all is known.
fn add_row<'a>(
    alloc: Global,
    props: &Props<'a>,
    row: &Row<'a>,
    mode: Mode,
    sizes: &mut Sizes,
) -> Result<(), NoMemory>
    requires clean { IsClean props.now }
    requires settled { IsSettled props.now }
    requires row { (l : Lineage) × (slice_get (lineages_of props.now) (out-Node row.now.node.now).id ≡ Some l) × IsRow props.now (lineages_of props.now) (out-Node row.now.node.now).id row.now l
        × (mode_of mode ≡ mode_under (l.node ∷ l.ancestors)) }
    requires behind { AreSizesFrom props.now ((out-Node row.now.node.now).id + 1) sizes.old }
    ensures { OnOk result (AreSizesFrom props.now (out-Node row.now.node.now).id sizes.new) }
{
    let node = row.node;
    let visible = props.visible_in(node.id);
    let lots = lots_of(alloc, node, &visible, &sizes.measures)?;
    add_faults(&mut sizes.faults, mode, &lots)?;
    let laid = lay_out(alloc, mode, &lots)?;
    write_offsets(&mut sizes.offsets, node.children, &laid.starts);
    sizes.measures[node.id as usize] = measure(props, node.kind, node.id, &laid);
    Ok(())
}

/// So many nodes of which nothing is known.
fn unknown(alloc: Global, count: usize) -> Result<Sizes, NoMemory>
    ensures { IfOk result (λ s. IsUnknown count s) }
{
    Ok(Sizes {
        measures: vec![in alloc; Measure { size: 0, access: 1 }; count]?,
        offsets: vec![in alloc; 0; count]?,
        faults: Vec::new(alloc),
    })
}

/// The sizes of the nodes of a tree, of which these are the rows, where each stands in the one that it is in, and the failures of
/// A1 and A2 (SystemRDL 2.0, 5.1.2.2). The only error is want of memory, or a number at or above 2^128.
pub fn sizes<'a>(alloc: Global, props: &Props<'a>, rows: &[Row<'a>]) -> Result<Sizes, NoMemory>
    requires clean { IsClean props.now }
    requires settled { IsSettled props.now }
    requires rows { AreRows props.now rows.now }
    ensures { IfOk result (λ s. AreSizes props.now s) }
{
    let modes = modes_of(alloc, props, rows)?;
    let mut sizes = unknown(alloc, rows.len())?;
    for at in (0..rows.len()).rev() {
        let row = &rows[at];
        let mode = modes[at];
        add_row(alloc, props, row, mode, &mut sizes)?;
    }
    Ok(sizes)
}
