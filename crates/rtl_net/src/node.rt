//! What a netlist is made of.

use rb_base::Text;

/// A node's number: its place among the nodes of its netlist, from 0.
#[derive(Clone, Copy, Debug, PartialEq, Eq, PartialOrd, Ord, Hash)]
pub struct Id(pub usize);

/// A register's asynchronous reset: none, or by a one-bit input that is active at 0 where it is `low` and else at 1.
/// While it is active the register contains `value`.
#[derive(Clone, Copy, Debug, PartialEq, Eq)]
pub enum NetReset {
    None,
    Async { pin: Id, low: bool, value: u128 },
}

/// An expression over nodes (IEEE 1364-2005, clause 5), of a width in bits (1 to 128).
///
/// `Const` has a width and a value. `Part` is the bits from the first number down to the second. `Cat` puts its first
/// operand above its second. `All`, `Any` and `Odd` reduce all bits to one by and, or, and exclusive or. `Add` and `Sub`
/// are modulo the width. `Eq` and `Lt` give one bit, and compare unsigned numbers. `Pick` is its second operand where
/// its first is 1, and else its third.
#[derive(Clone, Copy, Debug, PartialEq, Eq, PartialOrd, Ord, Hash)]
pub enum NetExpr {
    Const(u8, u128),
    Part(Id, u8, u8),
    Cat(Id, Id),
    Not(Id),
    All(Id),
    Any(Id),
    Odd(Id),
    Add(Id, Id),
    Sub(Id, Id),
    And(Id, Id),
    Or(Id, Id),
    Xor(Id, Id),
    Eq(Id, Id),
    Lt(Id, Id),
    Pick(Id, Id, Id),
}

/// A node: an input or a register with its width in bits, or a wire of an expression.
/// A register takes the value of `next` at each edge.
#[derive(Drop)]
pub enum NetNode {
    Input {
        name: Text,
        width: u8,
    },
    Register {
        name: Text,
        width: u8,
        reset: NetReset,
        next: Option<Id>,
    },
    Wire(NetExpr),
}

/// What has taken a seat: an input, or an output that shows a node.
#[derive(Clone, Copy, Debug, PartialEq, Eq)]
pub enum Occupant {
    Input(Id),
    Output(Id),
}

/// A place among the ports of the module, with its width in bits.
#[derive(Drop)]
pub struct Seat {
    pub name: Text,
    pub width: u8,
    pub taken: Option<Occupant>,
}
