//! What the operations of a program do over values of at most 64 bits.
ghost use Rattle.std.specs.Prelude.{◌≡◌, ℕ, ◌==◌, if◌then◌else◌};
ghost use Rattle.v_design.specs.Expr.{value_under};
ghost use Rattle.cyc_sim.specs.Operations.{result_over};
ghost use Rattle.sim_lanes.specs.Narrow.{value_by_kind};

use sim_lanes::Kind;
use v_design::{VOne, VTwo};

/// What an operator before an operand does.
pub(crate) fn one_kind(op: VOne) -> Kind
    ensures { (low width a b c : ℕ) → value_by_kind result low width a b c ≡ value_under op width a }
{
    match op {
        VOne::Not => Kind::Not,
        VOne::All => Kind::All,
        VOne::Any => Kind::Any,
        VOne::Odd => Kind::Odd,
    }
}

/// What an operator between operands does.
pub(crate) fn two_kind(op: VTwo) -> Kind
    ensures { (low width a b c : ℕ) → value_by_kind result low width a b c ≡ result_over op width a b }
{
    match op {
        VTwo::Add => Kind::Add,
        VTwo::Sub => Kind::Sub,
        VTwo::And => Kind::And,
        VTwo::Or => Kind::Or,
        VTwo::Xor => Kind::Xor,
        VTwo::Eq => Kind::Eq,
        VTwo::Ne => Kind::Ne,
        VTwo::Lt => Kind::Lt,
        VTwo::Le => Kind::Le,
        VTwo::Gt => Kind::Gt,
        VTwo::Ge => Kind::Ge,
    }
}

/// What a reset does whose pin asserts it at 0, or else at 1.
pub(crate) fn guard_kind(low: bool) -> Kind
    ensures { (from width a b c : ℕ) → value_by_kind result from width a b c ≡ (if (if low then a == 0 else a == 1) then c else b) }
{
    if low { Kind::Pick } else { Kind::Guard }
}
