//! Constants where a type is wanted.

ghost use Rattle.std.specs.Prelude.{◌≡◌, option_map};
ghost use Rattle.rdl_values.specs.Values as values;
ghost use Rattle.rdl_values.specs.Seen.{around_of, val_of};
ghost use Rattle.rdl_values.specs.Tabled.{around_in};

use crate::constants::{eval_in, path_place};
use crate::operators::{flag_in, number_in};
use crate::visible::Visible;
use rb_base::Place;
use rdl_base::{Fault, Rule};
use rdl_tree::{Env, Expr, PType, Value};

/// Where an expression begins, opening round brackets passed over: the place of a value of the wrong type.
pub fn start_of(expr: &Expr) -> Place
    ensures { result ≡ values.start expr.now }
{
    match expr {
        Expr::Number(_, place) | Expr::Flag(_, place) | Expr::Str(_, place) => *place,
        Expr::Ref(path, _) => path_place(path),
        Expr::EntryOf(of, _) => of.place,
        Expr::Not(_, place) => *place,
        Expr::Binary(_, left, _, _) => start_of(left),
        Expr::Pick(test, _, _, _) => start_of(test),
    }
}

/// The number of a constant expression where one is wanted, as an index or a dimension: a boolean is 0 or 1. It fails
/// as [`eval_in`](crate::eval_in) does, and where the value is a string with V2 at the expression's start.
pub fn number_of_in<'a>(expr: &Expr<'a>, visible: &Visible<'_, 'a>) -> Result<u64, Fault>
    ensures { result ≡ values.number_of (around_in visible.now) expr.now }
{
    let value = eval_in(expr, visible)?;
    number_in(&value).ok_or(Fault {
        place: start_of(expr),
        rule: Rule::V2,
    })
}

/// What [`number_of_in`] gives where the parameters and enumerations that `env` holds are visible.
pub fn number_of<'a>(expr: &Expr<'a>, env: &Env<'a>) -> Result<u64, Fault>
    ensures { result ≡ values.number_of (around_of env.now) expr.now }
{
    number_of_in(
        expr,
        &Visible {
            tables: &[],
            listed: Some(env),
        },
    )
}

/// What a value is as a parameter of a type (SystemRDL 2.0, 5.1.1): numbers and booleans convert to each other, and
/// nothing else does.
pub fn as_type<'a>(ptype: PType, value: &Value<'a>) -> Option<Value<'a>>
    ensures { option_map val_of result ≡ values.as_type ptype (val_of value.now) }
{
    match (ptype, value) {
        (PType::Number, _) => Some(Value::Number(number_in(value)?)),
        (PType::Flag, _) => Some(Value::Flag(flag_in(value)?)),
        (PType::Str, Value::Str(_)) => Some(*value),
        (PType::Str, _) => None,
    }
}
