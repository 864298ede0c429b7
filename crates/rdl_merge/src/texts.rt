//! Widths that the text of an instance gives.

ghost use Rattle.std.specs.Prelude.{◌≡◌, ◌+◌, ◌-◌, ◌++◌, IfOk, OnOk, flat_map, map, option_copied, option_to_list};
ghost use Rattle.rdl_values.specs.Bodies.{around};
ghost use Rattle.rdl_values.specs.Instances.{Instance};
ghost use Rattle.rdl_values.specs.Values.{Around, number_of};
ghost use Rattle.rdl_failures.specs.Shown.{IsShown};
ghost use Rattle.rdl_layers.specs.Phase4 as phase;
ghost use Rattle.rdl_layers.specs.Settings.{given};
ghost use Rattle.rdl_merge.specs.Widths.{range_by};

use rb_base::NoMemory;
use rdl_base::Fault;
use rdl_failures::number_seen;
use rdl_tree::Expr;
use rdl_values::Chain;
use std::alloc::Global;

// Two numbers, if both have one.
fn both_seen<'a>(
    high: &Expr<'a>,
    low: &Expr<'a>,
    visible: &Chain<'_, '_, '_, 'a>,
) -> Option<(u64, u64)>
    ensures { (env : Around) → IsShown visible.now env → option_to_list result ≡ range_by (number_of env high.now) (number_of env low.now) }
{
    let Ok(high) = number_seen(high, visible) else {
        return None;
    };
    let Ok(low) = number_seen(low, visible) else {
        return None;
    };
    Some((high, low))
}

/// The range of bits that the text gives, the high one first, if both have a number.
pub(crate) fn range_seen<'a>(
    range: Option<&(Expr<'a>, Expr<'a>)>,
    visible: &Chain<'_, '_, '_, 'a>,
) -> Option<(u64, u64)>
    ensures { (n : Instance) → n.use_.form.range ≡ option_copied range.entry → IsShown visible.now (around n.use_.scope) → option_to_list result ≡ phase.range_of n }
{
    match range {
        Some(bits) => both_seen(&bits.0, &bits.1, visible),
        None => None,
    }
}

// Puts a number behind others, if there is one.
fn add_number(list: &mut Vec<u128>, number: Result<u64, Fault>) -> Result<(), NoMemory>
    ensures { OnOk result (list.new.items ≡ list.old.items ++ given number) }
{
    match number {
        Ok(number) => {
            list.push(u128::from(number))?;
            Ok(())
        }
        Err(_) => Ok(()),
    }
}

// The numbers of expressions, of those that have one.
fn numbers_seen<'a>(
    alloc: Global,
    exprs: &[Expr<'a>],
    visible: &Chain<'_, '_, '_, 'a>,
) -> Result<Vec<u128>, NoMemory>
    ensures { IfOk result (λ r. (env : Around) → IsShown visible.now env → r.items ≡ flat_map (λ e. given (number_of env e)) exprs.now) }
{
    let mut list = Vec::new(alloc);
    for expr in exprs {
        add_number(&mut list, number_seen(expr, visible))?;
    }
    Ok(list)
}

// The bits of a range, none where the high one stands below the low one.
fn bits_between(high: u64, low: u64) -> u128
    ensures { result ≡ high + 1 - low }
{
    (u128::from(high) + 1).saturating_sub(u128::from(low))
}

// Puts the bits of a range behind other widths, if there is one.
fn add_range(widths: &mut Vec<u128>, range: Option<(u64, u64)>) -> Result<(), NoMemory>
    ensures { OnOk result (widths.new.items ≡ widths.old.items ++ map (λ r. r.0 + 1 - r.1) (option_to_list range)) }
{
    match range {
        Some((high, low)) => {
            widths.push(bits_between(high, low))?;
            Ok(())
        }
        None => Ok(()),
    }
}

/// The widths that the text gives: in brackets, then by a range.
pub(crate) fn form_widths<'a>(
    alloc: Global,
    dims: &[Expr<'a>],
    range: Option<(u64, u64)>,
    visible: &Chain<'_, '_, '_, 'a>,
) -> Result<Vec<u128>, NoMemory>
    ensures { IfOk result (λ r. (n : Instance) → n.use_.dims ≡ dims.now → option_to_list range ≡ phase.range_of n → IsShown visible.now (around n.use_.scope) → r.items ≡ phase.form_widths n) }
{
    let mut widths = numbers_seen(alloc, dims, visible)?;
    add_range(&mut widths, range)?;
    Ok(widths)
}
