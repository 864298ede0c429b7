//! Expressions and paths (SystemRDL 2.0, annex B).

use rb_base::Place;

/// A name, a slice of the source, and its place.
#[derive(Clone, Copy, Debug)]
pub struct Name<'a> {
    pub text: &'a [u8],
    pub place: Place,
}

/// A two-sided operator.
#[derive(Clone, Copy, Debug, PartialEq, Eq)]
pub enum Op {
    /// `||`
    OrElse,
    /// `&&`
    AndAlso,
    /// `|`
    Or,
    /// `^`
    Xor,
    /// `&`
    And,
    /// `==`
    Eq,
    /// `!=`
    Ne,
    /// `<`
    Lt,
    /// `<=`
    Le,
    /// `>`
    Gt,
    /// `>=`
    Ge,
    /// `<<`
    Shl,
    /// `>>`
    Shr,
    /// `+`
    Add,
    /// `-`
    Sub,
    /// `*`
    Mul,
    /// `/`
    Div,
    /// `%`
    Rem,
    /// `**`
    Pow,
}

/// An expression. A number's, a flag's or a string's place is that of its token, and any other place that of the
/// operator. Round brackets leave no trace.
#[cycle(expr)]
#[derive(Clone, Copy)]
pub enum Expr<'a> {
    Number(u64, Place),
    Flag(bool, Place),
    /// A string: what stands between its quotes.
    Str(&'a [u8], Place),
    /// A parameter or an instance, or behind `->` an item of one.
    Ref(Path<'a>, Option<Name<'a>>),
    /// An entry of an enumeration: the enumeration's name, then the entry's.
    EntryOf(Name<'a>, Name<'a>),
    /// `!` before its operand.
    Not(&'a Expr<'a>, Place),
    /// An operator between its left and its right operand.
    Binary(Op, &'a Expr<'a>, &'a Expr<'a>, Place),
    /// A condition, and what it chooses where it is true and where it is not.
    Pick(&'a Expr<'a>, &'a Expr<'a>, &'a Expr<'a>, Place),
}

/// A hierarchical path (SystemRDL 2.0, 5.1.4): one step or more.
#[cycle(expr)]
#[derive(Clone, Copy)]
pub struct Path<'a> {
    pub steps: &'a [Step<'a>],
}

/// An instance's name and its indices, first dimension first.
#[cycle(expr)]
#[derive(Clone, Copy)]
pub struct Step<'a> {
    pub name: Name<'a>,
    pub index: &'a [Expr<'a>],
}
