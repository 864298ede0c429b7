//! The indices of a target.

ghost use Rattle.std.specs.Prelude.{◌≡◌, IfOk, flat_map};
ghost use Rattle.rdl_values.specs.Bodies.{around};
ghost use Rattle.rdl_values.specs.Faults as faults;
ghost use Rattle.rdl_values.specs.Values.{Around, number_of};
ghost use Rattle.rdl_values.specs.Views.{steps_of};
ghost use Rattle.rdl_failures.specs.Noted.{IsNoted};
ghost use Rattle.rdl_failures.specs.Shown.{IsShown};
ghost use Rattle.rdl_layers.specs.Assignments.{Dynamic};
ghost use Rattle.rdl_layers.specs.Judged.{bad_indices};
ghost use Rattle.rdl_dynamic.specs.Indices.{bad_numbers};

use rb_base::NoMemory;
use rdl_failures::{Failures, number_seen};
use rdl_tree::{Expr, Path};
use rdl_values::Chain;

// Puts in the failure of a number, if it has one, and answers whether it has none.
fn note_number<'a>(
    expr: &Expr<'a>,
    visible: &Chain<'_, '_, '_, 'a>,
    failures: &mut Failures,
) -> Result<bool, NoMemory>
    ensures { IfOk result (λ clean. (env : Around) → IsShown visible.now env → IsNoted (faults.failures (number_of env expr.now)) clean failures.old failures.new) }
{
    let number = failures.value_of(number_seen(expr, visible))?;
    Ok(number.is_some())
}

// The same of all numbers of a step.
fn note_numbers<'a>(
    list: &[Expr<'a>],
    visible: &Chain<'_, '_, '_, 'a>,
    failures: &mut Failures,
) -> Result<bool, NoMemory>
    ensures { IfOk result (λ clean. (env : Around) → IsShown visible.now env → IsNoted (bad_numbers env list.now) clean failures.old failures.new) }
{
    let mut clean = true;
    for expr in list {
        clean &= note_number(expr, visible, failures)?;
    }
    Ok(clean)
}

/// Puts in the V failures of the indices of a target, of each index its first, and answers whether there are none.
pub fn judge_indices<'a>(
    path: &Path<'a>,
    visible: &Chain<'_, '_, '_, 'a>,
    failures: &mut Failures,
) -> Result<bool, NoMemory>
    ensures { IfOk result (λ clean. (d : Dynamic) → d.steps ≡ steps_of path.now → IsShown visible.now (around d.assigns.scope) → IsNoted (bad_indices d) clean failures.old failures.new) }
{
    let mut clean = true;
    for step in path.steps {
        clean &= note_numbers(step.index, visible, failures)?;
    }
    Ok(clean)
}
