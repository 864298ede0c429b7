//! What a constant expression sees: tables of bodies, and an environment that is gone through name by name.

ghost use Rattle.std.specs.Prelude.{◌≡◌, MatchOption, Some, None, Err};
ghost use Rattle.rdl_base.specs.declared.rule.Rule.TheVariants as rules;
ghost use Rattle.rdl_values.specs.Values.{entry_value};
ghost use Rattle.rdl_values.specs.Values as values;
ghost use Rattle.rdl_values.specs.Seen.{val_of, outcome_of};
ghost use Rattle.rdl_values.specs.Tabled.{tabled, around_in};

use crate::lookup::{entry, parameter};
use crate::table::{EnumTable, Table};
use rdl_base::{Fault, Rule};
use rdl_tree::{Env, Name, Value};

/// The bodies round a constant expression, the nearest first. A look-up goes through the tables one by one, but not through the
/// names in them; where none of them has the name, it goes through the names that are listed one by one.
#[derive(Clone, Copy)]
pub struct Visible<'s, 'a> {
    /// The nearest bodies, a table each.
    pub tables: &'s [&'s Table<'a>],
    /// The bodies round those, as they are listed, if any are not in tables.
    pub listed: Option<&'s Env<'a>>,
}

// The value of the nearest parameter of the name.
fn tabled_parameter<'a>(tables: &[&Table<'a>], name: &[u8]) -> Option<Value<'a>>
    ensures { MatchOption result
        (values.parameter (tabled tables.now) name.now ≡ None)
        (λ v. values.parameter (tabled tables.now) name.now ≡ Some (val_of v)) }
{
    for table in tables {
        if let Some(value) = table.value(name) {
            return Some(value);
        }
    }
    None
}

// The enumeration that a name means.
fn tabled_enum<'t, 'a>(tables: &[&'t Table<'a>], name: &Name<'a>) -> Option<&'t EnumTable<'a>>
    ensures { MatchOption result
        (values.visible_enum (tabled tables.now) name.now ≡ None)
        (λ e. values.visible_enum (tabled tables.now) name.now ≡ Some (record e.now { name = name.now.text.now })) }
{
    for table in tables {
        if let Some(of) = table.enum_before(name) {
            return Some(of);
        }
    }
    None
}

/// The value of the nearest parameter of the name.
#[tactic(auto, using(crate::proofs::Nearest::nearest_append))]
pub fn parameter_in<'a>(visible: &Visible<'_, 'a>, name: &[u8]) -> Option<Value<'a>>
    ensures { MatchOption result
        (values.parameter (around_in visible.now) name.now ≡ None)
        (λ v. values.parameter (around_in visible.now) name.now ≡ Some (val_of v)) }
{
    match tabled_parameter(visible.tables, name) {
        Some(value) => Some(value),
        None => match visible.listed {
            Some(env) => parameter(env, name),
            None => None,
        },
    }
}

/// V1 at a name.
pub(crate) fn unknown<'a>(name: &Name) -> Result<Value<'a>, Fault>
    ensures { result ≡ Err (record { place = name.now.place; rule = rules.V1 }) }
{
    Err(Fault {
        place: name.place,
        rule: Rule::V1,
    })
}

/// The number of an entry of an enumeration (SystemRDL 2.0, clause 6), or V1: at the enumeration's name where none of that
/// name is visible, and at the entry's name where it has no such entry.
#[tactic(auto, using(crate::proofs::Nearest::nearest_append))]
pub fn entry_in<'a>(
    visible: &Visible<'_, 'a>,
    of: &Name<'a>,
    name: &Name<'a>,
) -> Result<Value<'a>, Fault>
    ensures { outcome_of result ≡ entry_value (around_in visible.now) of.now name.now }
{
    match tabled_enum(visible.tables, of) {
        Some(found) => match found.number(name.text) {
            Some(number) => Ok(Value::Number(number)),
            None => unknown(name),
        },
        None => match visible.listed {
            Some(env) => entry(env, of, name),
            None => unknown(of),
        },
    }
}
