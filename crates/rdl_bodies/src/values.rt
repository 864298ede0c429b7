//! All values of a body's parameters, for readers of its tree.

ghost use Rattle.std.specs.Prelude.{◌≡◌, ◌∷◌, ◌++◌, [], ℕ, Option, List, Some, cond, is_some, map, option_map, option_to_list, IfOk, OnOk, slice_get};
ghost use Rattle.rdl_values.specs.Kept.{AreDefaults};
ghost use Rattle.rdl_values.specs.Overlaid.{Plain, value_over};
ghost use Rattle.rdl_values.specs.Seen.{bound_of, val_of};
ghost use Rattle.rdl_values.specs.Values.{Val, entry_named};
ghost use Rattle.rdl_bodies.specs.Kept.{AreDistinct};
ghost use Rattle.rdl_bodies.specs.Sited.{values_over};

use rb_base::NoMemory;
use rdl_tree::{Bound, Name, Param, Value};
use rdl_values::{Defaults, Table};
use std::alloc::Global;

// The value that is put over the parameter of a name.
fn put_value<'a>(touched: &[Bound<'a>], name: &[u8]) -> Option<Value<'a>>
    ensures { option_map val_of result ≡ entry_named name.now (map bound_of touched.now) }
{
    for bound in touched {
        if bound.name.text == name {
            return Some(bound.value);
        }
    }
    None
}

// The value of a parameter: what is put over it, or else what it has at all uses.
fn value_of<'a>(
    defaults: &Defaults<'a>,
    place: usize,
    name: &[u8],
    touched: &[Bound<'a>],
) -> Option<Value<'a>>
    ensures { (xs : Plain) (x : List ℕ × Option Val) → AreDefaults defaults.now xs → slice_get xs place ≡ Some x → x.0 ≡ name.now → option_map val_of result ≡ value_over (map bound_of touched.now) x }
{
    match put_value(touched, name) {
        Some(value) => Some(value),
        None => defaults.value(place),
    }
}

// Puts a parameter that has a value behind the others.
fn push_value<'a>(
    values: &mut Vec<Bound<'a>>,
    name: Name<'a>,
    value: Option<Value<'a>>,
) -> Result<(), NoMemory>
    ensures { OnOk result (map bound_of values.new.items ≡ map bound_of values.old.items ++ map (λ v. (name.entry.text.now, v)) (option_to_list (option_map val_of value.entry))) }
{
    if let Some(value) = value {
        values.push(Bound { name, value })?;
    }
    Ok(())
}

/// The values of some parameters in order, with these put over those that their text has at all uses.
pub fn all_values<'a>(
    alloc: Global,
    params: &[Param<'a>],
    touched: &[Bound<'a>],
) -> Result<Vec<Bound<'a>>, NoMemory>
    ensures { IfOk result (λ r. map bound_of r.items ≡ values_over params.now touched.now) }
{
    let mut values = Vec::new(alloc);
    if params.is_empty() {
        return Ok(values);
    }
    let defaults = Defaults::of(alloc, params)?;
    for (place, param) in params.iter().enumerate() {
        let value = value_of(&defaults, place, param.name.text, touched);
        push_value(&mut values, param.name, value)?;
    }
    Ok(values)
}

// Puts a parameter behind the others, where none has its name.
fn add_parameter<'a>(table: &mut Table<'a>, parameter: &Bound<'a>) -> Result<(), NoMemory>
    ensures enums { table.new.enums ≡ table.old.enums }
    ensures added { OnOk result (table.new.bound ≡ cond (is_some (entry_named parameter.now.name.text.now table.old.bound)) table.old.bound (table.old.bound ++ (bound_of parameter.now ∷ []))) }
{
    table.add(parameter.name.text, parameter.value)?;
    Ok(())
}

/// A table of parameters, no two of one name.
pub fn table_of<'a>(alloc: Global, bound: &[Bound<'a>]) -> Result<Table<'a>, NoMemory>
    requires { AreDistinct [] (map bound_of bound.now) }
    ensures { IfOk result (λ t. t ≡ (record { bound = map bound_of bound.now; enums = [] })) }
{
    let mut table = Table::new(alloc);
    for parameter in bound {
        add_parameter(&mut table, parameter)?;
    }
    Ok(table)
}
