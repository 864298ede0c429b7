//! The registers of a tree, in node order.

ghost use Rattle.std.specs.Prelude.{◌≡◌, ◌+◌, ◌<◌, ◌^◌, ◌↔◌, IfOk, IsTrue, OnOk, Some, slice_get, true};
ghost use Rattle.rdl_tree.specs.declared.node.Node.{out-Node};
ghost use Rattle.rdl_values.specs.Elaboration.{IsClean};
ghost use Rattle.rdl_values.specs.Lineages.{Lineage, lineages_of};
ghost use Rattle.rdl_layers.specs.Answers.{IsSettled};
ghost use Rattle.rdl_nodes.specs.declared.table.Row.{Row as AnyRow};
ghost use Rattle.rdl_nodes.specs.Rows.{AreRows, IsRow};
ghost use Rattle.rdl_addr.specs.Layout.{has_address};
ghost use Rattle.rdl_sizes.specs.Addresses.{AreAddresses, IsArea};
ghost use Rattle.rdl_bits.specs.Found.{AreRegisters, AreRegistersTo};

use crate::one::numbers_of;
use rb_base::NoMemory;
use rdl_layers::Props;
use rdl_layout::Register;
use rdl_nodes::Row;
use rdl_tree::Node;
use std::alloc::Global;

/// Whether a register ends below 2^128.
fn ends_below(register: &Register) -> bool
    ensures { IsTrue result ↔ register.now.address + register.now.size < 2 ^ 128 }
{
    register
        .address
        .checked_add(u128::from(register.size))
        .is_some()
}

/// Adds a node that stands at an address, where it is a register. The only error is want of memory, or a number at or above 2^128.
fn add_register(
    props: &Props<'_>,
    node: &Node<'_>,
    address: u128,
    registers: &mut Vec<Register>,
) -> Result<(), NoMemory>
    requires clean { IsClean props.now }
    requires settled { IsSettled props.now }
    requires row { (l : Lineage) × (slice_get (lineages_of props.now) (out-Node node.now).id ≡ Some l) × (x : AnyRow) × (x.node.now ≡ node.now) × IsRow props.now (lineages_of props.now) (out-Node node.now).id x l
        × (has_address l.node ≡ true → IsArea props.now l address) }
    requires before { AreRegistersTo props.now (out-Node node.now).id registers.old.items }
    ensures { OnOk result (AreRegistersTo props.now ((out-Node node.now).id + 1) registers.new.items) }
{
    if !node.kind.is_register() {
        return Ok(());
    }
    let register = numbers_of(props, node, address);
    if !ends_below(&register) {
        return Err(NoMemory);
    }
    registers.push(register)?;
    Ok(())
}

/// The registers of a tree, of which these are the rows and the addresses. The only error is want of memory, or a number at or above
/// 2^128.
pub(crate) fn registers(
    alloc: Global,
    props: &Props<'_>,
    rows: &[Row<'_>],
    addresses: &[u128],
) -> Result<Vec<Register>, NoMemory>
    requires clean { IsClean props.now }
    requires settled { IsSettled props.now }
    requires rows { AreRows props.now rows.now }
    requires addresses { AreAddresses props.now addresses.now }
    ensures { IfOk result (λ rs. AreRegisters props.now rs.items) }
{
    let mut registers = Vec::new(alloc);
    for at in 0..rows.len() {
        let row = &rows[at];
        let address = addresses[at];
        add_register(props, row.node, address, &mut registers)?;
    }
    Ok(registers)
}
