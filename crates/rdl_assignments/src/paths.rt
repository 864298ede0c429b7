//! Paths as values of properties.

ghost use Rattle.std.specs.Prelude.{◌≡◌, ◌≢◌, ℕ, None, Err, IfOk, IfSome, option_and_then, option_map, is_some};
ghost use Rattle.rdl_base.specs.declared.rule.Rule.TheVariants as rules;
ghost use Rattle.rdl_values.specs.Bodies.{Scope, around};
ghost use Rattle.rdl_values.specs.Values.{Around, or_fails, then};
ghost use Rattle.rdl_values.specs.Values as spec;
ghost use Rattle.rdl_failures.specs.Shown.{IsShown};
ghost use Rattle.rdl_layers.specs.Forms as forms;
ghost use Rattle.rdl_layers.specs.Meanings as meanings;
ghost use Rattle.rdl_props.specs.declared.form.Form.TheVariants as row;
ghost use Rattle.rdl_assignments.specs.Meant.{StandsIn, meaning_in, outcome_in};

use crate::indices::bare_name;
use crate::values::value_in;
use rb_base::Place;
use rdl_base::{Fault, Rule};
use rdl_failures::value_seen;
use rdl_layers::Setting;
use rdl_props::Form;
use rdl_tree::{Expr, Name, Path};
use rdl_values::Chain;

// The side that a precedence names (SystemRDL 2.0, 9.10).
fn side<'a>(name: &Name) -> Option<Setting<'a>>
    ensures outcome { (scope : Scope) → option_map (meaning_in scope) result ≡ forms.side name.now }
    ensures stands { (body : ℕ) → IfSome result (StandsIn body) }
{
    if name.text == b"sw".as_slice() {
        return Some(Setting::Hard(false));
    }
    if name.text == b"hw".as_slice() {
        return Some(Setting::Hard(true));
    }
    None
}

// The same of a path.
fn side_of<'a>(path: &Path<'a>, item: &Option<Name<'a>>) -> Option<Setting<'a>>
    ensures outcome { (scope : Scope) → option_map (meaning_in scope) result ≡ option_and_then forms.side (spec.bare_name path.now item.now) }
    ensures stands { (body : ℕ) → IfSome result (StandsIn body) }
{
    match bare_name(path, item) {
        Some(name) => side(name),
        None => None,
    }
}

// Another place than this.
fn beside(place: Place) -> Place
    ensures { result ≢ place }
{
    Place(if place.0 == 0 { 1 } else { 0 })
}

// Whether the name means a visible enumeration: an entry that one lacks fails at the entry's own place.
fn is_enum<'a>(name: &Name<'a>, visible: &Chain<'_, '_, '_, 'a>) -> bool
    ensures { (around : Around) → IsShown visible.now around → result ≡ is_some (spec.visible_enum around name.now) }
{
    let entry = Name {
        text: name.text,
        place: beside(name.place),
    };
    match value_seen(&Expr::EntryOf(*name, entry), visible) {
        Ok(_) => true,
        Err(fault) => fault.place != name.place,
    }
}

/// P6 at a place.
pub(crate) fn bad_value<'a>(place: Place) -> Result<Setting<'a>, Fault>
    ensures { result ≡ Err (record { place = place; rule = rules.P6 }) }
{
    Err(Fault {
        place,
        rule: Rule::P6,
    })
}

/// A setting, or P6 at the place where there is none.
pub(crate) fn or_bad_value<'a>(
    setting: Option<Setting<'a>>,
    place: Place,
) -> Result<Setting<'a>, Fault>
    ensures outcome { (scope : Scope) → outcome_in scope result ≡ or_fails (option_map (meaning_in scope) setting.entry) rules.P6 place }
    ensures stands { (body : ℕ) → IfSome setting.entry (StandsIn body) → IfOk result (StandsIn body) }
{
    match setting {
        Some(setting) => Ok(setting),
        None => bad_value(place),
    }
}

// The enumeration of the name, or P8 at the place where none is visible.
fn enum_named<'a>(
    name: &'a Name<'a>,
    place: Place,
    body: u32,
    visible: &Chain<'_, '_, '_, 'a>,
) -> Result<Setting<'a>, Fault>
    ensures outcome { (scope : Scope) → IsShown visible.now (around scope) → outcome_in scope result ≡ meanings.enum_named scope place name.now }
    ensures stands { IfOk result (StandsIn body) }
{
    if is_enum(name, visible) {
        Ok(Setting::EnumOf { name, scope: body })
    } else {
        Err(Fault {
            place,
            rule: Rule::P8,
        })
    }
}

// The enumeration that a path names.
fn enum_of<'a>(
    path: &'a Path<'a>,
    item: &'a Option<Name<'a>>,
    place: Place,
    body: u32,
    visible: &Chain<'_, '_, '_, 'a>,
) -> Result<Setting<'a>, Fault>
    ensures outcome { (scope : Scope) → IsShown visible.now (around scope) → outcome_in scope result ≡ meanings.from_path row.EnumName scope place path.now item.now }
    ensures stands { IfOk result (StandsIn body) }
{
    match bare_name(path, item) {
        Some(name) => enum_named(name, place, body, visible),
        None => bad_value(place),
    }
}

// Whether a reference is taken.
fn takes_reference(form: Form) -> bool
    ensures { result ≡ forms.takes_reference form }
{
    match form {
        Form::Refer | Form::FlagRefer | Form::NumberRefer | Form::FlagNumberRefer => true,
        _ => false,
    }
}

// A reference, or P6 at the place where none is taken.
fn reference<'a>(
    form: Form,
    path: &'a Path<'a>,
    item: &'a Option<Name<'a>>,
    place: Place,
    body: u32,
) -> Result<Setting<'a>, Fault>
    ensures outcome { (scope : Scope) → outcome_in scope result ≡ meanings.parameter_or_reference form scope place path.now item.now None }
    ensures stands { IfOk result (StandsIn body) }
{
    if takes_reference(form) {
        Ok(Setting::Ref {
            path,
            item,
            scope: body,
            place,
        })
    } else {
        bad_value(place)
    }
}

// The value of the parameter that a path names, else a reference.
fn parameter_or_reference<'a>(
    form: Form,
    path: &'a Path<'a>,
    item: &'a Option<Name<'a>>,
    place: Place,
    body: u32,
    visible: &Chain<'_, '_, '_, 'a>,
) -> Result<Setting<'a>, Fault>
    ensures outcome { (scope : Scope) → IsShown visible.now (around scope)
        → outcome_in scope result ≡ meanings.parameter_or_reference form scope place path.now item.now (spec.parameter_of (around scope) (spec.bare_name path.now item.now)) }
    ensures stands { IfOk result (StandsIn body) }
{
    match value_seen(&Expr::Ref(*path, *item), visible) {
        Ok(value) => or_bad_value(value_in(form, &value), place),
        Err(_) => reference(form, path, item, place, body),
    }
}

/// What a path is where a value of this form is taken (SystemRDL 2.0, 5.1.4): P8 where it names no visible enumeration and has to,
/// and else P6 where the form doesn't take it. Both stand at the assignment's place.
pub(crate) fn path_in<'a>(
    form: Form,
    path: &'a Path<'a>,
    item: &'a Option<Name<'a>>,
    place: Place,
    body: u32,
    visible: &Chain<'_, '_, '_, 'a>,
) -> Result<Setting<'a>, Fault>
    ensures outcome { (scope : Scope) → IsShown visible.now (around scope) → outcome_in scope result ≡ meanings.from_path form scope place path.now item.now }
    ensures stands { IfOk result (StandsIn body) }
{
    match form {
        Form::Side => or_bad_value(side_of(path, item), place),
        Form::EnumName => enum_of(path, item, place, body, visible),
        _ => parameter_or_reference(form, path, item, place, body, visible),
    }
}
