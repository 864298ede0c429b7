//! The items of a source: definitions, instances and property assignments (SystemRDL 2.0, clause 5 and annex B).

use crate::expr::{Expr, Name, Path};
use rb_base::{Place, Trigger};
use rdl_base::Keyword;

/// What a component is (SystemRDL 2.0, 5.1.1).
#[derive(Clone, Copy, Debug, PartialEq, Eq)]
pub enum Kind {
    Addrmap,
    Regfile,
    Reg,
    Field,
    Signal,
}

impl Kind {
    ghost use Rattle.std.specs.Prelude.{◌≡◌, ◌||◌};
    ghost use Rattle.rdl_tree.specs.Kinds.{same_kind};
    ghost use Rattle.rdl_tree.specs.declared.item.Kind.TheVariants as kinds;

    /// Whether it is a field.
    pub fn is_field(self) -> bool
        ensures { result ≡ same_kind kinds.Field self }
    {
        self == Kind::Field
    }

    /// Whether it is a register.
    pub fn is_register(self) -> bool
        ensures { result ≡ same_kind kinds.Reg self }
    {
        self == Kind::Reg
    }

    /// Whether it is a signal.
    pub fn is_signal(self) -> bool
        ensures { result ≡ same_kind kinds.Signal self }
    {
        self == Kind::Signal
    }

    /// Whether it is an address map or a register file.
    pub fn is_container(self) -> bool
        ensures { result ≡ (same_kind kinds.Addrmap self || same_kind kinds.Regfile self) }
    {
        matches!(self, Kind::Addrmap | Kind::Regfile)
    }
}

/// The type of a parameter (SystemRDL 2.0, 5.1.1 and clause 6). All number types are one.
#[derive(Clone, Copy, Debug, PartialEq, Eq)]
pub enum PType {
    Number,
    Flag,
    Str,
}

/// What is assigned to a property: an expression, or a word of the standard.
#[derive(Clone, Copy)]
pub enum Assigned<'a> {
    Expr(Expr<'a>),
    Word(Keyword),
}

/// An assignment of a property (SystemRDL 2.0, 5.1.3): its trigger word or its value, if it has one. The place is its
/// first byte, the word `default` or a target included.
#[derive(Clone, Copy)]
pub struct Set<'a> {
    pub prop: Name<'a>,
    pub trigger: Option<Trigger>,
    pub value: Option<Assigned<'a>>,
    pub place: Place,
}

/// An entry of an enumeration (SystemRDL 2.0, clause 6), with its own properties.
#[derive(Clone, Copy)]
pub struct Entry<'a> {
    pub name: Name<'a>,
    pub value: Option<Expr<'a>>,
    pub sets: &'a [Set<'a>],
}

/// An instance (SystemRDL 2.0, 5.1.2): its dimensions or its range of bits, the high one first, its reset value `=`, and in
/// bytes its address `@`, stride `+=` and alignment `%=`.
#[derive(Clone, Copy)]
pub struct Inst<'a> {
    pub name: Name<'a>,
    pub dims: &'a [Expr<'a>],
    pub range: Option<&'a (Expr<'a>, Expr<'a>)>,
    pub reset: Option<&'a Expr<'a>>,
    pub at: Option<&'a Expr<'a>>,
    pub stride: Option<&'a Expr<'a>>,
    pub align: Option<&'a Expr<'a>>,
}

/// A parameter's value at a use.
#[derive(Clone, Copy)]
pub struct Arg<'a> {
    pub name: Name<'a>,
    pub value: Expr<'a>,
}

/// The instances of one use, and its arguments.
#[derive(Clone, Copy)]
pub struct Insts<'a> {
    pub args: &'a [Arg<'a>],
    pub list: &'a [Inst<'a>],
}

/// A parameter of a definition.
#[derive(Clone, Copy)]
pub struct Param<'a> {
    pub name: Name<'a>,
    pub ptype: PType,
    pub default: Option<Expr<'a>>,
}

/// A component's definition (SystemRDL 2.0, 5.1.1), with the instances that follow it, if any do. The place is that of
/// its name, or of its kind where it has none.
#[cycle(item)]
#[derive(Clone, Copy)]
pub struct Def<'a> {
    pub kind: Kind,
    pub name: Option<Name<'a>>,
    pub params: &'a [Param<'a>],
    pub items: &'a [Item<'a>],
    pub insts: Option<Insts<'a>>,
    pub place: Place,
}

/// An item of a source or of a body.
#[cycle(item)]
#[derive(Clone, Copy)]
pub enum Item<'a> {
    Def(Def<'a>),
    /// An enumeration (SystemRDL 2.0, clause 6).
    EnumDef {
        name: Name<'a>,
        entries: &'a [Entry<'a>],
    },
    /// Instances of a named definition, as aliases of a register where one is named (SystemRDL 2.0, 10.5).
    Made {
        alias: Option<Name<'a>>,
        of: Name<'a>,
        insts: Insts<'a>,
    },
    /// A default of the body (SystemRDL 2.0, 5.1.3).
    Default(Set<'a>),
    Local(Set<'a>),
    /// An assignment to an instance below (SystemRDL 2.0, 5.1.3).
    Dynamic {
        target: Path<'a>,
        set: Set<'a>,
    },
}

/// A source.
#[derive(Clone, Copy)]
pub struct Source<'a> {
    pub items: &'a [Item<'a>],
}
