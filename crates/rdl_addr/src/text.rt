//! What the text of an instance gives.

ghost use Rattle.std.specs.Prelude.{◌≡◌, option_copied, option_to_list};
ghost use Rattle.rdl_values.specs.Values.{Around};
ghost use Rattle.rdl_failures.specs.Shown.{IsShown};
ghost use Rattle.rdl_addr.specs.TextReadings as spec;

use rdl_failures::number_seen;
use rdl_layout::Part;
use rdl_tree::{Expr, Inst};
use rdl_values::Chain;

/// The number of an expression, if there is one and it has one.
fn number_given<'a>(expr: Option<&Expr<'a>>, visible: &Chain<'_, '_, '_, 'a>) -> Option<u64>
    ensures { (around : Around) → IsShown visible.now around → option_to_list result ≡ spec.numbers_in around (option_to_list (option_copied expr.entry)) }
{
    match expr {
        Some(expr) => number_seen(expr, visible).ok(),
        None => None,
    }
}

/// The range that the text gives, high bit first, where this is visible.
pub fn range_given<'a>(
    range: Option<&(Expr<'a>, Expr<'a>)>,
    visible: &Chain<'_, '_, '_, 'a>,
) -> Option<(u64, u64)>
    ensures { (around : Around) → IsShown visible.now around → option_to_list result ≡ spec.range_in around (option_copied range.entry) }
{
    let Some((high, low)) = range else {
        return None;
    };
    match (number_seen(high, visible), number_seen(low, visible)) {
        (Ok(high), Ok(low)) => Some((high, low)),
        _ => None,
    }
}

/// The elements of an instance, from what its text gives where this is visible, and what is known of them.
pub fn part<'a>(
    inst: &Inst<'a>,
    visible: &Chain<'_, '_, '_, 'a>,
    others: u64,
    size: u128,
    access: u128,
) -> Part
    ensures count { result.others ≡ others }
    ensures bytes { result.size ≡ size }
    ensures width { result.access ≡ access }
    ensures text { (around : Around) → IsShown visible.now around → spec.IsGiven result around inst.now }
{
    Part {
        others,
        size,
        access,
        at: number_given(inst.at, visible),
        stride: number_given(inst.stride, visible),
        align: number_given(inst.align, visible),
        is_array: !inst.dims.is_empty(),
    }
}
