//! The failures of the rules on the addresses of registers.

ghost use Rattle.std.specs.Prelude.{◌≡◌, IfOk};
ghost use Rattle.rdl_values.specs.Elaboration.{IsClean};
ghost use Rattle.rdl_layers.specs.Answers.{IsSettled};
ghost use Rattle.rdl_nodes.specs.Rows.{AreRows};
ghost use Rattle.rdl_sizes.specs.Addresses.{AreAddresses};
ghost use Rattle.rdl_bits.specs.Failing.{failures_of_addresses};

use crate::list::registers;
use rb_base::NoMemory;
use rdl_addr::registers_are_placed;
use rdl_base::Fault;
use rdl_layers::Props;
use rdl_layout::register_faults;
use rdl_nodes::Row;
use rdl_tree::Elab;
use std::alloc::Global;

/// The failures of A3 to A6, where these are the rows and the addresses of a tree's nodes (SystemRDL 2.0, 5.1.2.2). The only error is
/// want of memory, or a number at or above 2^128.
pub fn address_faults(
    alloc: Global,
    elab: &Elab<'_>,
    props: &Props<'_>,
    rows: &[Row<'_>],
    addresses: &[u128],
) -> Result<Vec<Fault>, NoMemory>
    requires clean { IsClean props.now }
    requires settled { IsSettled props.now }
    requires tree { elab.now ≡ props.now }
    requires rows { AreRows props.now rows.now }
    requires addresses { AreAddresses props.now addresses.now }
    ensures { IfOk result (λ fs. fs.items ≡ failures_of_addresses props.now) }
{
    registers_are_placed();
    let registers = registers(alloc, props, rows, addresses)?;
    let faults = register_faults(alloc, elab.top.place, &registers)?;
    Ok(faults)
}
