//! What names stand for in the bodies round an expression (SystemRDL 2.0, 5.1.4). A look-up takes no memory and goes
//! through the names of those bodies one by one: at most 64 parameters of a definition, the enumerations of a body, and the entries
//! of the one that is meant.

ghost use Rattle.std.specs.Prelude.{◌≡◌, MatchOption, map, Some, None, []};
ghost use Rattle.rdl_values.specs.Values.{entry_named, entry_value};
ghost use Rattle.rdl_values.specs.Values as values;
ghost use Rattle.rdl_values.specs.Visible as visible;
ghost use Rattle.rdl_values.specs.Seen.{around_of, bound_of, entry_of, listed_enum, names_in, val_of, outcome_of};

use rdl_base::{Fault, Rule};
use rdl_tree::{Bound, EntryValue, EnumValues, Env, Name, Value};

// The value of the first parameter of a body that has the name.
fn bound_value<'a>(bound: &[Bound<'a>], name: &[u8]) -> Option<Value<'a>>
    ensures { MatchOption result
        (entry_named name.now (map bound_of bound.now) ≡ None)
        (λ v. entry_named name.now (map bound_of bound.now) ≡ Some (val_of v)) }
{
    for parameter in bound {
        if parameter.name.text == name {
            return Some(parameter.value);
        }
    }
    None
}

/// The value of the nearest parameter of the name.
pub fn parameter<'a>(env: &Env<'a>, name: &[u8]) -> Option<Value<'a>>
    ensures { MatchOption result
        (values.parameter (around_of env.now) name.now ≡ None)
        (λ v. values.parameter (around_of env.now) name.now ≡ Some (val_of v)) }
{
    match bound_value(env.bound, name) {
        Some(value) => Some(value),
        None => match env.outer {
            Some(outer) => parameter(outer, name),
            None => None,
        },
    }
}

// The number of the first entry of the name.
fn number_of(entries: &[EntryValue], name: &[u8]) -> Option<u64>
    ensures { result ≡ entry_named name.now (map entry_of entries.now) }
{
    for entry in entries {
        if entry.name.text == name {
            return Some(entry.value);
        }
    }
    None
}

// The first enumeration of a body that a name means: of that name, and standing before it.
fn enum_before<'a>(enums: &[EnumValues<'a>], name: &Name) -> Option<EnumValues<'a>>
    ensures { MatchOption result
        (visible.enum_before name.now (names_in [] enums.now) ≡ None)
        (λ e. visible.enum_before name.now (names_in [] enums.now) ≡ Some (listed_enum e)) }
{
    for of in enums {
        if of.name.text == name.text && of.name.place.0 < name.place.0 {
            return Some(*of);
        }
    }
    None
}

// The enumeration that a name means.
fn visible_enum<'a>(env: &Env<'a>, name: &Name) -> Option<EnumValues<'a>>
    ensures { MatchOption result
        (values.visible_enum (around_of env.now) name.now ≡ None)
        (λ e. values.visible_enum (around_of env.now) name.now ≡ Some (listed_enum e)) }
{
    match enum_before(env.enums, name) {
        Some(found) => Some(found),
        None => match env.outer {
            Some(outer) => visible_enum(outer, name),
            None => None,
        },
    }
}

/// The number of an entry of an enumeration (SystemRDL 2.0, clause 6), or V1: at the enumeration's name where none of that
/// name is visible, and at the entry's name where it has no such entry.
pub fn entry<'a>(env: &Env<'a>, of: &Name<'a>, name: &Name<'a>) -> Result<Value<'a>, Fault>
    ensures { outcome_of result ≡ entry_value (around_of env.now) of.now name.now }
{
    let Some(found) = visible_enum(env, of) else {
        return Err(Fault {
            place: of.place,
            rule: Rule::V1,
        });
    };
    match number_of(found.entries, name.text) {
        Some(number) => Ok(Value::Number(number)),
        None => Err(Fault {
            place: name.place,
            rule: Rule::V1,
        }),
    }
}
