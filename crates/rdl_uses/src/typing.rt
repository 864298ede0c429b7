//! Values as the types of parameters have them.

ghost use Rattle.std.specs.Prelude.{◌≡◌, ◌∷◌};
ghost use Rattle.rdl_values.specs.Parameters as parameters;
ghost use Rattle.rdl_values.specs.Seen.{outcome_of};
ghost use Rattle.rdl_values.specs.Values.{Around};
ghost use Rattle.rdl_values.specs.Chained.{chained};
ghost use Rattle.rdl_failures.specs.Shown.{IsAlike, IsShown};

use rdl_base::{Fault, Rule};
use rdl_failures::value_seen;
use rdl_tree::{Expr, Param, Value};
use rdl_values::{Chain, Table, as_type, start_of};

/// The value of an expression as the type of a parameter has it, or V2 at its start.
pub(crate) fn typed<'a>(
    param: &Param<'a>,
    expr: &Expr<'a>,
    visible: &Chain<'_, '_, '_, 'a>,
) -> Result<Value<'a>, Fault>
    ensures { (around : Around) → IsShown visible.now around → outcome_of result ≡ parameters.typed around param.now expr.now }
{
    let value = value_seen(expr, visible)?;
    as_type(param.ptype, &value).ok_or(Fault {
        place: start_of(expr),
        rule: Rule::V2,
    })
}

/// The value of a default, which sees the parameters before its own and the bodies round the definition's text.
pub(crate) fn default_typed<'a>(
    param: &Param<'a>,
    expr: &Expr<'a>,
    table: &Table<'a>,
    tables: &[Table<'a>],
    inside: &[usize],
) -> Result<Value<'a>, Fault>
    ensures { (around : Around) → IsAlike (chained tables.now inside.now) around → outcome_of result ≡ parameters.typed (table.now ∷ around) param.now expr.now }
{
    let visible = Chain {
        nearest: Some(table),
        tables,
        numbers: inside,
    };
    typed(param, expr, &visible)
}
