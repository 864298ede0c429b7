//! Constants where what is visible shows the bodies of a definition, name by name.

ghost use Rattle.std.specs.Prelude.{◌≡◌};
ghost use Rattle.rdl_values.specs.Seen.{outcome_of};
ghost use Rattle.rdl_values.specs.Values.{Around, number_of, value_of};
ghost use Rattle.rdl_failures.specs.Shown.{IsShown};

use rdl_base::Fault;
use rdl_tree::{Expr, Value};
use rdl_values::{Chain, eval_along, number_along, values_by_look_ups};

/// The value of a constant expression, or its first failure, in all bodies whose names stand for what they do here. It takes no
/// memory (SystemRDL 2.0, clause 6).
pub fn value_seen<'a>(expr: &Expr<'a>, visible: &Chain<'_, '_, '_, 'a>) -> Result<Value<'a>, Fault>
    ensures { (around : Around) → IsShown visible.now around → outcome_of result ≡ value_of around expr.now }
{
    values_by_look_ups();
    eval_along(expr, visible)
}

/// The number of a constant expression, or its first failure, in all bodies whose names stand for what they do here.
pub fn number_seen<'a>(expr: &Expr<'a>, visible: &Chain<'_, '_, '_, 'a>) -> Result<u64, Fault>
    ensures { (around : Around) → IsShown visible.now around → result ≡ number_of around expr.now }
{
    values_by_look_ups();
    number_along(expr, visible)
}
