//! Ports in their order, wires that are shared, and constants folded.

use rb_base::NoMemory;
use rtl_net::{NetExpr, NetNode, Netlist, Occupant};
use std::alloc::Global;

pub(crate) fn seats_keep_their_order(alloc: Global) -> Result<bool, NoMemory> {
    let mut net = Netlist::new(alloc, b"m")?;
    net.seat(b"b", 1)?;
    net.seat(b"a", 1)?;
    let a = net.input(b"a", 1)?;
    net.output(b"b", a)?;
    let taken = match net.seats() {
        [b, a] => Some((b.taken, a.taken)),
        _ => None,
    };
    Ok(taken == Some((Some(Occupant::Output(a)), Some(Occupant::Input(a)))))
}

pub(crate) fn one_expression_is_one_wire(alloc: Global) -> Result<bool, NoMemory> {
    let mut net = Netlist::new(alloc, b"m")?;
    let a = net.input(b"a", 1)?;
    let b = net.input(b"b", 1)?;
    let first = net.wire(NetExpr::And(a, b))?;
    let second = net.wire(NetExpr::And(a, b))?;
    Ok(first == second && net.nodes().len() == 3)
}

pub(crate) fn sums_of_constants_wrap(alloc: Global) -> Result<bool, NoMemory> {
    let mut net = Netlist::new(alloc, b"m")?;
    let a = net.wire(NetExpr::Const(4, 15))?;
    let b = net.wire(NetExpr::Const(4, 3))?;
    let sum = net.fold(NetExpr::Add(a, b))?;
    let folded = match net.nodes().get(sum.0) {
        Some(NetNode::Wire(expr)) => Some(*expr),
        _ => None,
    };
    Ok(folded == Some(NetExpr::Const(4, 2)))
}
