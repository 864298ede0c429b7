//! What a constant expression sees of bodies that stand in one list: look-ups and values without a list of references.

ghost use Rattle.std.specs.Prelude.{◌≡◌, MatchOption, Some, None, Ok, Err};
ghost use Rattle.rdl_base.specs.declared.rule.Rule.TheVariants as rules;
ghost use Rattle.rdl_tree.specs.declared.expr.Expr.TheVariants as expr;
ghost use Rattle.rdl_values.specs.Chained.{body_at, chained, chained_in};
ghost use Rattle.rdl_values.specs.Seen.{val_of, outcome_of};
ghost use Rattle.rdl_values.specs.Values.{entry_named, entry_value, number, or_fails, then, value_of};
ghost use Rattle.rdl_values.specs.Values as values;

use crate::constants::{bare_name, path_place};
use crate::operators::{apply, condition, number_in};
use crate::table::{EnumTable, Table};
use crate::visible::unknown;
use crate::wanted::start_of;
use rdl_base::{Fault, Rule};
use rdl_tree::{Expr, Name, Path, Value};

/// Bodies by their numbers in a list of tables, the nearest first. A number past the end stands for none. A body that isn't in the
/// list may be nearer.
#[derive(Clone, Copy)]
pub struct Chain<'n, 't, 'c, 'a> {
    /// A body before the others.
    pub nearest: Option<&'n Table<'a>>,
    /// The tables of all bodies.
    pub tables: &'t [Table<'a>],
    /// The bodies that are seen.
    pub numbers: &'c [usize],
}

// The value of the parameter of the name in a body.
fn value_in<'a>(tables: &[Table<'a>], number: usize, name: &[u8]) -> Option<Value<'a>>
    ensures { MatchOption result
        (values.parameter (body_at tables.now number) name.now ≡ None)
        (λ v. values.parameter (body_at tables.now number) name.now ≡ Some (val_of v)) }
{
    match tables.get(number) {
        Some(table) => table.value(name),
        None => None,
    }
}

// The enumeration that the name means in a body.
fn enum_in<'t, 'a>(
    tables: &'t [Table<'a>],
    number: usize,
    name: &Name<'a>,
) -> Option<&'t EnumTable<'a>>
    ensures { MatchOption result
        (values.visible_enum (body_at tables.now number) name.now ≡ None)
        (λ e. values.visible_enum (body_at tables.now number) name.now ≡ Some (record e.now { name = name.now.text.now })) }
{
    match tables.get(number) {
        Some(table) => table.enum_before(name),
        None => None,
    }
}

// The value of the nearest parameter of the name.
#[tactic(auto, using(crate::proofs::Nearest::nearest_append))]
fn parameter_along<'a>(tables: &[Table<'a>], numbers: &[usize], name: &[u8]) -> Option<Value<'a>>
    ensures { MatchOption result
        (values.parameter (chained tables.now numbers.now) name.now ≡ None)
        (λ v. values.parameter (chained tables.now numbers.now) name.now ≡ Some (val_of v)) }
{
    for number in numbers {
        if let Some(value) = value_in(tables, *number, name) {
            return Some(value);
        }
    }
    None
}

// The enumeration that the name means.
#[tactic(auto, using(crate::proofs::Nearest::nearest_append))]
fn enum_along<'t, 'a>(
    tables: &'t [Table<'a>],
    numbers: &[usize],
    name: &Name<'a>,
) -> Option<&'t EnumTable<'a>>
    ensures { MatchOption result
        (values.visible_enum (chained tables.now numbers.now) name.now ≡ None)
        (λ e. values.visible_enum (chained tables.now numbers.now) name.now ≡ Some (record e.now { name = name.now.text.now })) }
{
    for number in numbers {
        if let Some(of) = enum_in(tables, *number, name) {
            return Some(of);
        }
    }
    None
}

// The nearest parameter of the name.
#[tactic(auto, using(crate::proofs::Nearest::nearest_append))]
fn parameter_seen<'a>(chain: &Chain<'_, '_, '_, 'a>, name: &[u8]) -> Option<Value<'a>>
    ensures { MatchOption result
        (values.parameter (chained_in chain.now) name.now ≡ None)
        (λ v. values.parameter (chained_in chain.now) name.now ≡ Some (val_of v)) }
{
    if let Some(table) = chain.nearest {
        if let Some(value) = table.value(name) {
            return Some(value);
        }
    }
    parameter_along(chain.tables, chain.numbers, name)
}

// The number of an entry of an enumeration, or V1 at the entry's name where it has no such entry.
fn entry_of<'a>(found: &EnumTable<'a>, name: &Name<'a>) -> Result<Value<'a>, Fault>
    ensures { outcome_of result ≡ then (or_fails (entry_named name.now.text.now found.now.entries) rules.V1 name.now.place) λ k. Ok (number k) }
{
    match found.number(name.text) {
        Some(number) => Ok(Value::Number(number)),
        None => unknown(name),
    }
}

// The number of an entry of an enumeration, or V1: at the enumeration's name where none of that name is visible, and at the
// entry's name where it has no such entry.
fn entry_along<'a>(
    tables: &[Table<'a>],
    numbers: &[usize],
    of: &Name<'a>,
    name: &Name<'a>,
) -> Result<Value<'a>, Fault>
    ensures { outcome_of result ≡ entry_value (chained tables.now numbers.now) of.now name.now }
{
    match enum_along(tables, numbers, of) {
        Some(found) => entry_of(found, name),
        None => unknown(of),
    }
}

// The same in all bodies that are seen.
fn entry_seen<'a>(
    chain: &Chain<'_, '_, '_, 'a>,
    of: &Name<'a>,
    name: &Name<'a>,
) -> Result<Value<'a>, Fault>
    ensures { outcome_of result ≡ entry_value (chained_in chain.now) of.now name.now }
{
    if let Some(table) = chain.nearest {
        if let Some(found) = table.enum_before(of) {
            return entry_of(found, name);
        }
    }
    entry_along(chain.tables, chain.numbers, of, name)
}

// A path as a constant: the parameter that it names, or V1 at its first name.
fn reference<'a>(
    path: &Path<'a>,
    item: &Option<Name<'a>>,
    chain: &Chain<'_, '_, '_, 'a>,
) -> Result<Value<'a>, Fault>
    ensures { outcome_of result ≡ value_of (chained_in chain.now) (expr.Ref path.now item.now) }
{
    if let Some(name) = bare_name(path, item) {
        if let Some(value) = parameter_seen(chain, name.text) {
            return Ok(value);
        }
    }
    Err(Fault {
        place: path_place(path),
        rule: Rule::V1,
    })
}

/// What [`eval_in`](crate::eval_in) gives where the bodies of a chain are visible. It takes no memory, and recurses as deep as the
/// tree goes.
pub fn eval_along<'a>(expr: &Expr<'a>, chain: &Chain<'_, '_, '_, 'a>) -> Result<Value<'a>, Fault>
    ensures { outcome_of result ≡ value_of (chained_in chain.now) expr.now }
{
    match expr {
        Expr::Number(n, _) => Ok(Value::Number(*n)),
        Expr::Flag(b, _) => Ok(Value::Flag(*b)),
        Expr::Str(s, _) => Ok(Value::Str(s)),
        Expr::Ref(path, item) => reference(path, item, chain),
        Expr::EntryOf(of, name) => entry_seen(chain, of, name),
        Expr::Not(operand, place) => {
            let value = eval_along(operand, chain)?;
            Ok(Value::Flag(!condition(&value, *place)?))
        }
        Expr::Binary(op, left, right, place) => {
            let x = eval_along(left, chain)?;
            let y = eval_along(right, chain)?;
            apply(*op, *place, &x, &y)
        }
        Expr::Pick(test, chosen, other, place) => {
            let value = eval_along(test, chain)?;
            if condition(&value, *place)? {
                eval_along(chosen, chain)
            } else {
                eval_along(other, chain)
            }
        }
    }
}

/// What [`number_of_in`](crate::number_of_in) gives where the bodies of a chain are visible.
pub fn number_along<'a>(expr: &Expr<'a>, chain: &Chain<'_, '_, '_, 'a>) -> Result<u64, Fault>
    ensures { result ≡ values.number_of (chained_in chain.now) expr.now }
{
    let value = eval_along(expr, chain)?;
    number_in(&value).ok_or(Fault {
        place: start_of(expr),
        rule: Rule::V2,
    })
}
