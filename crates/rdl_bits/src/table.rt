//! The bits of all fields.

ghost use Rattle.std.specs.Prelude.{◌≡◌, ℕ, ◌+◌, ◌<◌, IfOk, OnOk, [], Some, length, replicate, slice_get, true};
ghost use Rattle.rdl_tree.specs.Kinds.{same_kind};
ghost use Rattle.rdl_tree.specs.declared.item.Kind.TheVariants as kinds;
ghost use Rattle.rdl_tree.specs.declared.node.Node.{out-Node};
ghost use Rattle.rdl_values.specs.Elaboration.{IsClean};
ghost use Rattle.rdl_values.specs.Lineages.{Lineage, lineages_of};
ghost use Rattle.rdl_nodes.specs.declared.table.Row.{Row as AnyRow};
ghost use Rattle.rdl_nodes.specs.Rows.{AreRows, IsRow};
ghost use Rattle.rdl_bits.specs.Tabled.{AreBits, AreBitsTo};

use crate::register::{add_all, are_spans, fields_in};
use crate::writes::write_bits;
use rb_base::NoMemory;
use rdl_addr::number;
use rdl_base::Fault;
use rdl_layers::Props;
use rdl_layout::{bit_faults, bits_of};
use rdl_nodes::Row;
use rdl_props::Prop;
use rdl_tree::Node;
use std::alloc::Global;

/// For each node its high and its low bit, 0 where it is no field, and the failures of rules B1 and B2.
#[derive(Drop)]
pub struct BitTable {
    pub bits: Vec<(u8, u8)>,
    pub faults: Vec<Fault>,
}

/// Takes up the fields of a register.
fn add_register<'a>(
    alloc: Global,
    props: &Props<'a>,
    node: &Node<'a>,
    table: &mut BitTable,
) -> Result<(), NoMemory>
    requires clean { IsClean props.now }
    requires register { same_kind kinds.Reg (out-Node node.now).kind ≡ true }
    requires row { (l : Lineage) × (x : AnyRow) × (x.node.now ≡ node.now) × (slice_get (lineages_of props.now) (out-Node node.now).id ≡ Some l) × IsRow props.now (lineages_of props.now) (out-Node node.now).id x l }
    requires before { AreBitsTo props.now (out-Node node.now).id table.old }
    ensures { OnOk result (AreBitsTo props.now ((out-Node node.now).id + 1) table.new) }
{
    let visible = props.visible_in(node.id);
    let fields = fields_in(alloc, props, node, &visible)?;
    let bits = bits_of(alloc, &fields)?;
    if !are_spans(&bits) {
        return Err(NoMemory);
    }
    let faults = bit_faults(alloc, number(props, node.id, Prop::Regwidth), &bits)?;
    add_all(&mut table.faults, &faults)?;
    write_bits(&mut table.bits, node.children, &bits);
    Ok(())
}

/// Takes up a node.
fn add_row<'a>(
    alloc: Global,
    props: &Props<'a>,
    row: &Row<'a>,
    table: &mut BitTable,
) -> Result<(), NoMemory>
    requires clean { IsClean props.now }
    requires row { (l : Lineage) × (slice_get (lineages_of props.now) (out-Node row.now.node.now).id ≡ Some l) × IsRow props.now (lineages_of props.now) (out-Node row.now.node.now).id row.now l }
    requires before { AreBitsTo props.now (out-Node row.now.node.now).id table.old }
    ensures { OnOk result (AreBitsTo props.now ((out-Node row.now.node.now).id + 1) table.new) }
{
    if !row.node.kind.is_register() {
        return Ok(());
    }
    add_register(alloc, props, row.node, table)
}

/// The bits of the fields of a tree, of which these are the rows, and the failures of B1 and B2 (SystemRDL 2.0, 9.1). The only
/// error is want of memory, or a number at or above 2^128.
pub fn bit_table<'a>(
    alloc: Global,
    props: &Props<'a>,
    rows: &[Row<'a>],
) -> Result<BitTable, NoMemory>
    requires clean { IsClean props.now }
    requires rows { AreRows props.now rows.now }
    ensures { IfOk result (λ t. AreBits props.now t) }
{
    let mut table = BitTable {
        bits: vec![in alloc; (0, 0); rows.len()]?,
        faults: Vec::new(alloc),
    };
    for at in 0..rows.len() {
        let row = &rows[at];
        add_row(alloc, props, row, &mut table)?;
    }
    Ok(table)
}
