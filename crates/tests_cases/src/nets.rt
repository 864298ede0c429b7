//! Netlists built and printed: what holds of them, and the text of a module.

use crate::netlist::{one_expression_is_one_wire, seats_keep_their_order, sums_of_constants_wrap};
use crate::printed::wires_are_assigned;
use rb_base::NoMemory;
use std::io;

fn show(rt: HostRuntime, title: &str, held: Result<bool, NoMemory>) -> io::Result<()> {
    match held {
        Ok(true) => println!(rt; "{}: holds", title),
        Ok(false) => println!(rt; "{}: does not hold", title),
        Err(NoMemory) => println!(rt; "{}: no memory", title),
    }
}

fn show_text(rt: HostRuntime, title: &str, printed: Result<Vec<u8>, NoMemory>) -> io::Result<()> {
    match printed {
        Ok(text) => {
            println!(rt; "{}:", title)?;
            rt.stdout().write_all(&text)
        }
        Err(NoMemory) => println!(rt; "{}: no memory", title),
    }
}

/// Prints what holds of some netlists, and the module of one.
pub(crate) fn print_nets(rt: HostRuntime) -> io::Result<()> {
    let alloc = rt.alloc();
    show(rt, "seats keep their order", seats_keep_their_order(alloc))?;
    show(
        rt,
        "one expression is one wire",
        one_expression_is_one_wire(alloc),
    )?;
    show(rt, "sums of constants wrap", sums_of_constants_wrap(alloc))?;
    show_text(rt, "wires are assigned", wires_are_assigned(alloc))
}
