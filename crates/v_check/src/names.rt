//! The names in expressions.

ghost use Rattle.std.specs.Prelude.{◌≡◌};
ghost use Rattle.std.specs.Str.{bytes_eq};
ghost use Rattle.v_design.specs.Expr.{nets_of};
ghost use Rattle.v_design.specs.Lexemes.{among};
ghost use Rattle.v_design.specs.Seen.{expr_seen};
ghost use Rattle.v_design.specs.WellFormed.{clock};

use rb_base::Text;
use v_design::VExpr;

/// The bytes of a name.
pub(crate) fn bytes_of(name: &Text) -> &[u8]
    ensures { result.now ≡ name.now }
{
    name.bytes.as_slice()
}

/// Whether the name is that of the clock, PCLK (AMBA 3 APB, IHI 0024B, chapter 4).
pub(crate) fn names_clock(name: &[u8]) -> bool
    ensures { result ≡ bytes_eq name.now clock }
{
    name == b"PCLK".as_slice()
}

/// Whether an expression reads PCLK.
pub(crate) fn reads_clock(expr: &VExpr) -> bool
    ensures { result ≡ among (nets_of (expr_seen expr.now)) clock }
{
    match expr {
        VExpr::Net(name) | VExpr::Bits(name, _, _) => names_clock(bytes_of(name)),
        VExpr::Const(_, _) => false,
        VExpr::Cat(parts) => {
            for part in parts {
                if reads_clock(part) {
                    return true;
                }
            }
            false
        }
        VExpr::One(_, of) => reads_clock(of),
        VExpr::Two(_, left, right) => reads_clock(left) || reads_clock(right),
        VExpr::Pick(test, chosen, other) => {
            reads_clock(test) || reads_clock(chosen) || reads_clock(other)
        }
    }
}
