//! Sites that are the same.

ghost use Rattle.std.specs.Prelude.{◌≡◌, map, true};
ghost use Rattle.rdl_values.specs.Seen.{bound_of, val_of};

use rdl_tree::{Bound, Value};

// Whether two values are the same.
fn is_same_value(x: &Value, y: &Value) -> bool
    ensures { result ≡ true → val_of x.now ≡ val_of y.now }
{
    match (x, y) {
        (Value::Number(m), Value::Number(n)) => m == n,
        (Value::Flag(a), Value::Flag(b)) => a == b,
        (Value::Str(s), Value::Str(t)) => s == t,
        _ => false,
    }
}

// Whether two parameters have the same name and value.
fn is_same_parameter(x: &Bound, y: &Bound) -> bool
    ensures { result ≡ true → bound_of x.now ≡ bound_of y.now }
{
    x.name.text == y.name.text && is_same_value(&x.value, &y.value)
}

/// Whether the parameters have the same names and values.
pub(crate) fn are_same(xs: &[Bound], ys: &[Bound]) -> bool
    ensures { result ≡ true → map bound_of xs.now ≡ map bound_of ys.now }
{
    if xs.len() != ys.len() {
        return false;
    }
    for (at, x) in xs.iter().enumerate() {
        if !is_same_parameter(x, &ys[at]) {
            return false;
        }
    }
    true
}

/// Whether the numbers are the same.
pub(crate) fn are_equal(xs: &[usize], ys: &[usize]) -> bool
    ensures { result ≡ true → xs.now ≡ ys.now }
{
    if xs.len() != ys.len() {
        return false;
    }
    for (at, x) in xs.iter().enumerate() {
        if *x != ys[at] {
            return false;
        }
    }
    true
}
