//! The sections of a module.

/// The sections of a module whose lines are of the netlist's nodes.
#[derive(Clone, Copy)]
pub(crate) enum Section {
    Registers,
    Wires,
    Assignments,
    Blocks,
}
