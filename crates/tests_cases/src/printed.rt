//! The text of a netlist.
ghost use Rattle.std.specs.Prelude.{IfOk};
ghost use Rattle.v_printer.specs.TextOf.{IsWhole};

use rb_base::NoMemory;
use rtl_net::{NetExpr, Netlist};
use std::alloc::Global;
use v_printer::text;

/// The sum of two inputs.
fn adder(alloc: Global) -> Result<Netlist, NoMemory>
    ensures { IfOk result (λ net. IsWhole net) }
{
    let mut net = Netlist::new(alloc, b"adder")?;
    let a = net.input(b"a", 1)?;
    let b = net.input(b"b", 1)?;
    let sum = net.wire(NetExpr::Add(a, b))?;
    net.output(b"s", sum)?;
    Ok(net)
}

pub(crate) fn wires_are_assigned(alloc: Global) -> Result<Vec<u8>, NoMemory> {
    let net = adder(alloc)?;
    text(alloc, &net)
}
