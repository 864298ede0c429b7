//! The value of a constant expression.

ghost use Rattle.std.specs.Prelude.{◌≡◌};
ghost use Rattle.rdl_tree.specs.declared.expr.Expr.TheVariants as expr;
ghost use Rattle.rdl_values.specs.Values.{value_of};
ghost use Rattle.rdl_values.specs.Values as values;
ghost use Rattle.rdl_values.specs.Views.{steps_of};
ghost use Rattle.rdl_values.specs.Seen.{around_of, outcome_of};
ghost use Rattle.rdl_values.specs.Tabled.{around_in};

use crate::operators::{apply, condition};
use crate::visible::{Visible, entry_in, parameter_in};
use rb_base::Place;
use rdl_base::{Fault, Rule};
use rdl_tree::{Env, Expr, Name, Path, Value};

/// The name that a path of one bare name is.
#[tactic(auto, using(crate::proofs::Paths::steps_of_code))]
pub(crate) fn bare_name<'a>(path: &Path<'a>, item: &Option<Name<'a>>) -> Option<Name<'a>>
    ensures { result ≡ values.bare_name path.now item.now }
{
    match (path.steps, item) {
        ([step], None) if step.index.is_empty() => Some(step.name),
        _ => None,
    }
}

/// Where a path's first name stands.
#[tactic(auto, using(crate::proofs::Paths::steps_of_code))]
pub fn path_place(path: &Path) -> Place
    ensures { result ≡ values.path_place (steps_of path.now) }
{
    match path.steps {
        [first, ..] => first.name.place,
        [] => Place(0),
    }
}

// A path as a constant: the parameter that it names, or V1 at its first name.
fn reference<'a>(
    path: &Path<'a>,
    item: &Option<Name<'a>>,
    visible: &Visible<'_, 'a>,
) -> Result<Value<'a>, Fault>
    ensures { outcome_of result ≡ value_of (around_in visible.now) (expr.Ref path.now item.now) }
{
    if let Some(name) = bare_name(path, item) {
        if let Some(value) = parameter_in(visible, name.text) {
            return Ok(value);
        }
    }
    Err(Fault {
        place: path_place(path),
        rule: Rule::V1,
    })
}

/// The value of a constant expression, or its first failure: V1 where a name stands for no parameter and no enumeration that is
/// visible, V2 for an operand of the wrong type, V3 for a result below 0 or above 2^64 - 1, and V4 for a divisor of 0. V1 stands
/// at the name, and the others at the operator. Operands come before their operator, the left one first; `&&` and `||` have both
/// sides, and `? :` has the chosen one alone.
///
/// The operators are those of SystemRDL 2.0, annex B. It takes no memory, and recurses as deep as the tree goes: what the
/// parser accepts has at most 64 open brackets, and 64 operators at each level of them.
pub fn eval_in<'a>(expr: &Expr<'a>, visible: &Visible<'_, 'a>) -> Result<Value<'a>, Fault>
    ensures { outcome_of result ≡ value_of (around_in visible.now) expr.now }
{
    match expr {
        Expr::Number(n, _) => Ok(Value::Number(*n)),
        Expr::Flag(b, _) => Ok(Value::Flag(*b)),
        Expr::Str(s, _) => Ok(Value::Str(s)),
        Expr::Ref(path, item) => reference(path, item, visible),
        Expr::EntryOf(of, name) => entry_in(visible, of, name),
        Expr::Not(operand, place) => {
            let value = eval_in(operand, visible)?;
            Ok(Value::Flag(!condition(&value, *place)?))
        }
        Expr::Binary(op, left, right, place) => {
            let x = eval_in(left, visible)?;
            let y = eval_in(right, visible)?;
            apply(*op, *place, &x, &y)
        }
        Expr::Pick(test, chosen, other, place) => {
            let value = eval_in(test, visible)?;
            if condition(&value, *place)? {
                eval_in(chosen, visible)
            } else {
                eval_in(other, visible)
            }
        }
    }
}

/// What [`eval_in`] gives where the parameters and enumerations that `env` holds are visible. A look-up goes through them one by
/// one: for a whole source use [`eval_in`] with tables.
pub fn eval<'a>(expr: &Expr<'a>, env: &Env<'a>) -> Result<Value<'a>, Fault>
    ensures { outcome_of result ≡ value_of (around_of env.now) expr.now }
{
    eval_in(
        expr,
        &Visible {
            tables: &[],
            listed: Some(env),
        },
    )
}
