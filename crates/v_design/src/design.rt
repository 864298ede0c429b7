//! An accepted module.

ghost use Rattle.std.specs.Prelude.{◌≡◌};
ghost use Rattle.v_design.specs.Design.{inputs_among, outputs_among, registers_among};

use rb_base::{Pin, Place, Port, Text};

/// A wire or a register inside a module (IEEE 1364-2005, clause 4.2), with its width in bits (1 to 128).
#[derive(Drop)]
pub struct Decl {
    /// Whether it is a `reg`, and else a `wire`.
    pub reg: bool,
    pub name: Text,
    pub width: u8,
}

/// An asynchronous reset of a register, in the event of its block (IEEE 1364-2005, clause 9.7.4).
#[derive(Drop)]
pub struct VReset {
    /// The one-bit input that asserts it.
    pub pin: Text,
    /// Whether it is asserted at 0 (`negedge`), and else at 1 (`posedge`).
    pub low: bool,
    /// The width of its constant in bits, which is the register's (1 to 128).
    pub width: u8,
    /// The constant that the register takes, below 2 to the width.
    pub value: u128,
}

/// An operator before its operand (IEEE 1364-2005, clauses 5.1.10 and 5.1.11).
#[derive(Clone, Copy, Debug, PartialEq, Eq)]
pub enum VOne {
    /// `~`, each bit inverted.
    Not,
    /// `&`, one bit: whether all bits are 1.
    All,
    /// `|`, one bit: whether any bit is 1.
    Any,
    /// `^`, one bit: whether an odd number of bits is 1.
    Odd,
}

/// An operator between two operands of one width (IEEE 1364-2005, clauses 5.1.5, 5.1.7, 5.1.8 and 5.1.10). Numbers
/// are unsigned. A comparison gives one bit, and any other operator the operands' width.
#[derive(Clone, Copy, Debug, PartialEq, Eq)]
pub enum VTwo {
    /// `+`, modulo 2 to the width.
    Add,
    /// `-`, modulo 2 to the width.
    Sub,
    /// `&`, bit by bit.
    And,
    /// `|`, bit by bit.
    Or,
    /// `^`, bit by bit.
    Xor,
    /// `==`.
    Eq,
    /// `!=`.
    Ne,
    /// `<`.
    Lt,
    /// `<=`.
    Le,
    /// `>`.
    Gt,
    /// `>=`.
    Ge,
}

/// An expression (IEEE 1364-2005, clause 5). Bits are counted from 0, the least significant.
#[derive(Drop)]
pub enum VExpr {
    /// A whole net.
    Net(Text),
    /// The bits of a net from the first number down to the second (clause 5.2.1).
    Bits(Text, u8, u8),
    /// A constant: its width in bits (1 to 128), and its value below 2 to the width (clause 3.5.1).
    Const(u8, u128),
    /// A concatenation of 1 to 128 bits in all, the most significant part first (clause 5.1.14).
    Cat(Vec<VExpr>),
    /// An operator before its operand.
    One(VOne, Box<VExpr>),
    /// An operator between its operands.
    Two(VTwo, Box<VExpr>, Box<VExpr>),
    /// A condition of one bit, the value where it is 1, and the value where it is 0 (clause 5.1.13).
    Pick(Box<VExpr>, Box<VExpr>, Box<VExpr>),
}

/// A continuous assignment (IEEE 1364-2005, clause 6.1), or a register's block at the rising edge of PCLK (clauses
/// 9.2.2 and 9.9.2).
#[derive(Drop)]
pub struct Stmt {
    /// The net that it drives.
    pub to: Text,
    /// Whether it is a block, and else an assignment.
    pub clocked: bool,
    /// The block's asynchronous reset; an assignment has none.
    pub reset: Option<VReset>,
    pub expr: VExpr,
    /// Where its first word stands in the source.
    pub place: Place,
}

/// An accepted module (IEEE 1364-2005, clause 12.1). Ports, declarations and statements stand in the order of the
/// source. A name that a block with a reset spells twice is kept once.
#[derive(Drop)]
pub struct Design {
    pub name: Text,
    pub ports: Vec<Port>,
    pub decls: Vec<Decl>,
    pub stmts: Vec<Stmt>,
    /// The list that `inputs` gives.
    pub ins: Vec<Pin>,
    /// The list that `outputs` gives.
    pub outs: Vec<Pin>,
    /// The list that `registers` gives.
    pub regs: Vec<Pin>,
    pub ghost ins_listed: { ins.items ≡ inputs_among ports.items },
    pub ghost outs_listed: { outs.items ≡ outputs_among ports.items },
    pub ghost regs_listed: { regs.items ≡ registers_among decls.items },
}

impl Design {
    ghost use Rattle.v_design.specs.Design.{inputs, outputs, registers};
    ghost use Rattle.v_design.specs.Seen.{module_seen};

    /// The name of the module, as its source spells it. Takes no memory.
    pub fn name(&self) -> &[u8]
        ensures { result.now ≡ (module_seen self.now).name }
    {
        &self.name.bytes
    }

    /// The input ports without PCLK, in order of declaration: the pins that each vector of a run gives, with their
    /// widths in bits. Takes no memory.
    pub fn inputs(&self) -> &[Pin]
        ensures { result.now ≡ inputs (module_seen self.now) }
    {
        &self.ins
    }

    /// The output ports, in order of declaration: the pins that a run answers at each edge, with their widths in bits.
    /// Takes no memory.
    pub fn outputs(&self) -> &[Pin]
        ensures { result.now ≡ outputs (module_seen self.now) }
    {
        &self.outs
    }

    /// The registers, in order of declaration: the names under which a run keeps contents between edges, with their
    /// widths in bits. Takes no memory.
    pub fn registers(&self) -> &[Pin]
        ensures { result.now ≡ registers (module_seen self.now) }
    {
        &self.regs
    }
}
