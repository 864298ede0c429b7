//! What an operator makes of the values of its operands (SystemRDL 2.0, annex B).

ghost use Rattle.std.specs.Prelude.{◌≡◌, Some, option_map};
ghost use Rattle.rdl_values.specs.Values.{applied, as_flag, as_number, or_fails};
ghost use Rattle.rdl_values.specs.Values as values;
ghost use Rattle.rdl_base.specs.declared.rule.Rule.TheVariants as rules;
ghost use Rattle.rdl_values.specs.Operators as operators;
ghost use Rattle.rdl_values.specs.Seen.{outcome_of, val_of};

use crate::numbers::{power, shifted_left, shifted_right};
use rb_base::Place;
use rdl_base::{Fault, Rule};
use rdl_tree::{Op, Value};

/// What a value is where a number is wanted: a boolean is 0 or 1, and a string is none.
pub fn number_in(value: &Value) -> Option<u64>
    ensures { result ≡ as_number (val_of value.now) }
{
    match value {
        Value::Number(n) => Some(*n),
        Value::Flag(b) => Some(if *b { 1 } else { 0 }),
        Value::Str(_) => None,
    }
}

/// What a value is where a boolean is wanted: a number is true where it is not 0, and a string is none.
pub fn flag_in(value: &Value) -> Option<bool>
    ensures { result ≡ as_flag (val_of value.now) }
{
    match value {
        Value::Number(n) => Some(*n != 0),
        Value::Flag(b) => Some(*b),
        Value::Str(_) => None,
    }
}

/// What a value is where the operator at a place wants a boolean, or V2 there.
pub fn condition(value: &Value, place: Place) -> Result<bool, Fault>
    ensures { result ≡ or_fails (as_flag (val_of value.now)) rules.V2 place }
{
    flag_in(value).ok_or(Fault {
        place,
        rule: Rule::V2,
    })
}

// Whether two values of one type are equal.
pub(crate) fn same(x: &Value, y: &Value) -> Option<bool>
    ensures { result ≡ operators.same (val_of x.now) (val_of y.now) }
{
    match (x, y) {
        (Value::Number(m), Value::Number(n)) => Some(m == n),
        (Value::Flag(a), Value::Flag(b)) => Some(a == b),
        (Value::Str(s), Value::Str(t)) => Some(s == t),
        _ => None,
    }
}

// A number, or the failure of a rule where there is none.
fn number_or<'a>(number: Option<u64>, rule: Rule, place: Place) -> Result<Value<'a>, Fault>
    ensures { outcome_of result ≡ or_fails (option_map values.number number) rule place }
{
    match number {
        Some(n) => Ok(Value::Number(n)),
        None => Err(Fault { place, rule }),
    }
}

// An operator at a place, over two numbers.
fn of_numbers<'a>(op: Op, place: Place, m: u64, n: u64) -> Result<Value<'a>, Fault>
    ensures { outcome_of result ≡ applied op place (values.number m) (values.number n) }
{
    match op {
        Op::OrElse => Ok(Value::Flag(m != 0 || n != 0)),
        Op::AndAlso => Ok(Value::Flag(m != 0 && n != 0)),
        Op::Or => Ok(Value::Number(m | n)),
        Op::Xor => Ok(Value::Number(m ^ n)),
        Op::And => Ok(Value::Number(m & n)),
        Op::Eq => Ok(Value::Flag(m == n)),
        Op::Ne => Ok(Value::Flag(m != n)),
        Op::Lt => Ok(Value::Flag(m < n)),
        Op::Le => Ok(Value::Flag(m <= n)),
        Op::Gt => Ok(Value::Flag(m > n)),
        Op::Ge => Ok(Value::Flag(m >= n)),
        Op::Shl => number_or(shifted_left(m, n), Rule::V3, place),
        Op::Shr => Ok(Value::Number(shifted_right(m, n))),
        Op::Add => number_or(m.checked_add(n), Rule::V3, place),
        Op::Sub => number_or(m.checked_sub(n), Rule::V3, place),
        Op::Mul => number_or(m.checked_mul(n), Rule::V3, place),
        Op::Div => number_or(m.checked_div(n), Rule::V4, place),
        Op::Rem => number_or(m.checked_rem(n), Rule::V4, place),
        Op::Pow => number_or(power(m, n), Rule::V3, place),
    }
}

/// What an operator at a place makes of the values of its operands (SystemRDL 2.0, annex B). It fails there: V2 where an
/// operand is of the wrong type, V4 where the right one of `/` or `%` is 0, and V3 where the result is below 0 or above
/// 2^64 - 1.
pub fn apply<'a>(op: Op, place: Place, x: &Value<'a>, y: &Value<'a>) -> Result<Value<'a>, Fault>
    ensures { outcome_of result ≡ applied op place (val_of x.now) (val_of y.now) }
{
    let wrong_type = Fault {
        place,
        rule: Rule::V2,
    };
    match op {
        Op::Eq => Ok(Value::Flag(same(x, y).ok_or(wrong_type)?)),
        Op::Ne => Ok(Value::Flag(!same(x, y).ok_or(wrong_type)?)),
        // A number is true where it is not 0, so `||` and `&&` of booleans are those of numbers.
        _ => {
            let m = number_in(x).ok_or(wrong_type)?;
            let n = number_in(y).ok_or(wrong_type)?;
            of_numbers(op, place, m, n)
        }
    }
}
