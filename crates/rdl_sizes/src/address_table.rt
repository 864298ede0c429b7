//! The addresses of all nodes, from the first to the last.

ghost use Rattle.std.specs.Prelude.{◌≡◌, ◌<◌, ◌^◌, IfOk, SomeIff, length};
ghost use Rattle.rdl_values.specs.Elaboration.{IsClean};
ghost use Rattle.rdl_nodes.specs.Rows.{AreRows};
ghost use Rattle.rdl_sizes.specs.Modes.{IsBelow};
ghost use Rattle.rdl_sizes.specs.Sized.{AreSizes};
ghost use Rattle.rdl_sizes.specs.Addresses.{AreAddresses, address_by};

use crate::known::Sizes;
use rb_base::NoMemory;
use rdl_layers::Props;
use rdl_nodes::Row;
use std::alloc::Global;

/// Where a node stands, in bytes: so far behind the node of this number, or at 0 where there is none. None at or above 2^128.
fn address(addresses: &[u128], parent: Option<u32>, offset: u128) -> Option<u128>
    requires { IsBelow (length addresses.now) parent }
    ensures { SomeIff result (address_by addresses.now parent offset < 2 ^ 128) (address_by addresses.now parent offset) }
{
    match parent {
        Some(parent) => addresses[parent as usize].checked_add(offset),
        None => Some(0),
    }
}

/// The addresses of the registers and containers of a tree, in bytes, of which these are the rows and the sizes
/// (SystemRDL 2.0, 5.1.2.2). The only error is want of memory, or a number at or above 2^128.
pub fn addresses(
    alloc: Global,
    props: &Props<'_>,
    rows: &[Row<'_>],
    sizes: &Sizes,
) -> Result<Vec<u128>, NoMemory>
    requires clean { IsClean props.now }
    requires rows { AreRows props.now rows.now }
    requires sizes { AreSizes props.now sizes.now }
    ensures { IfOk result (λ as_. AreAddresses props.now as_.items) }
{
    let mut addresses = Vec::new(alloc);
    for at in 0..rows.len() {
        let row = &rows[at];
        let offset = sizes.offsets[at];
        let Some(next) = address(&addresses, row.parent, offset) else {
            return Err(NoMemory);
        };
        addresses.push(next)?;
    }
    Ok(addresses)
}
