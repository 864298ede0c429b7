//! The indices of a step, as numbers.

ghost use Rattle.std.specs.Prelude.{◌≡◌, IfOk};
ghost use Rattle.rdl_values.specs.Uses.{values};
ghost use Rattle.rdl_values.specs.Values.{Around};
ghost use Rattle.rdl_failures.specs.Shown.{IsShown};
ghost use Rattle.rdl_resolve.specs.Led.{AreNumbers};

use rb_base::NoMemory;
use rdl_failures::number_seen;
use rdl_tree::Expr;
use rdl_values::Chain;
use std::alloc::Global;

/// The numbers of some expressions, if each has one, where this is visible.
pub(crate) fn numbers_of<'a>(
    alloc: Global,
    list: &[Expr<'a>],
    visible: &Chain<'_, '_, '_, 'a>,
) -> Result<Option<Vec<u64>>, NoMemory>
    ensures { IfOk result (λ r. (around : Around) → IsShown visible.now around → AreNumbers r (values around list.now)) }
{
    let mut numbers = Vec::new(alloc);
    for expr in list {
        let Ok(number) = number_seen(expr, visible) else {
            return Ok(None);
        };
        numbers.push(number)?;
    }
    Ok(Some(numbers))
}
