//! What an assignment gives.

ghost use Rattle.std.specs.Prelude.{◌≡◌, ℕ, Some, IfOk};
ghost use Rattle.rdl_base.specs.declared.rule.Rule.TheVariants as rules;
ghost use Rattle.rdl_tree.specs.declared.expr.Expr.TheVariants as exprs;
ghost use Rattle.rdl_values.specs.Bodies.{Scope, around};
ghost use Rattle.rdl_values.specs.Values.{or_fails, then, value_of};
ghost use Rattle.rdl_layers.specs.Forms.{from_value};
ghost use Rattle.rdl_failures.specs.Shown.{IsShown};
ghost use Rattle.rdl_layers.specs.Meanings as meanings;
ghost use Rattle.rdl_assignments.specs.Meant.{StandsIn, outcome_in};

use crate::indices::first_failure;
use crate::paths::{bad_value, or_bad_value, path_in};
use crate::values::value_in;
use crate::words::word_in;
use rb_base::{Place, Trigger};
use rdl_base::Fault;
use rdl_failures::value_seen;
use rdl_layers::Setting;
use rdl_props::{Form, Prop, takes};
use rdl_tree::{Assigned, Expr, Name, Path, Set, Value};
use rdl_values::Chain;

// A path, whose indices have values.
fn ref_in<'a>(
    form: Form,
    path: &'a Path<'a>,
    item: &'a Option<Name<'a>>,
    place: Place,
    body: u32,
    visible: &Chain<'_, '_, '_, 'a>,
) -> Result<Setting<'a>, Fault>
    ensures outcome { (scope : Scope) → IsShown visible.now (around scope) → outcome_in scope result ≡ meanings.from_expr form scope place (exprs.Ref path.now item.now) }
    ensures stands { IfOk result (StandsIn body) }
{
    match first_failure(path, visible) {
        Some(fault) => Err(fault),
        None => path_in(form, path, item, place, body, visible),
    }
}

// An expression that is no path.
fn constant_in<'a>(
    form: Form,
    expr: &Expr<'a>,
    place: Place,
    visible: &Chain<'_, '_, '_, 'a>,
) -> Result<Setting<'a>, Fault>
    ensures outcome { (scope : Scope) → IsShown visible.now (around scope) → outcome_in scope result ≡ then (value_of (around scope) expr.now) λ v. or_fails (from_value form v) rules.P6 place }
    ensures stands { (body : ℕ) → IfOk result (StandsIn body) }
{
    match value_seen(expr, visible) {
        Ok(value) => or_bad_value(value_in(form, &value), place),
        Err(fault) => Err(fault),
    }
}

// An expression.
fn expr_in<'a>(
    form: Form,
    expr: &'a Expr<'a>,
    place: Place,
    body: u32,
    visible: &Chain<'_, '_, '_, 'a>,
) -> Result<Setting<'a>, Fault>
    ensures outcome { (scope : Scope) → IsShown visible.now (around scope) → outcome_in scope result ≡ meanings.from_expr form scope place expr.now }
    ensures stands { IfOk result (StandsIn body) }
{
    match expr {
        Expr::Ref(path, item) => ref_in(form, path, item, place, body, visible),
        _ => constant_in(form, expr, place, visible),
    }
}

// What is written.
fn written_in<'a>(
    form: Form,
    value: &'a Assigned<'a>,
    place: Place,
    body: u32,
    visible: &Chain<'_, '_, '_, 'a>,
) -> Result<Setting<'a>, Fault>
    ensures outcome { (scope : Scope) → IsShown visible.now (around scope) → outcome_in scope result ≡ meanings.from_given form scope place (Some value.now) }
    ensures stands { IfOk result (StandsIn body) }
{
    match value {
        Assigned::Expr(expr) => expr_in(form, expr, place, body, visible),
        Assigned::Word(word) => or_bad_value(word_in(form, *word), place),
    }
}

// What is given, which is true where nothing is written.
fn given_in<'a>(
    form: Form,
    value: &'a Option<Assigned<'a>>,
    place: Place,
    body: u32,
    visible: &Chain<'_, '_, '_, 'a>,
) -> Result<Setting<'a>, Fault>
    ensures outcome { (scope : Scope) → IsShown visible.now (around scope) → outcome_in scope result ≡ meanings.from_given form scope place value.now }
    ensures stands { IfOk result (StandsIn body) }
{
    match value {
        Some(value) => written_in(form, value, place, body, visible),
        None => or_bad_value(value_in(form, &Value::Flag(true)), place),
    }
}

// What a trigger word gives: it stands before `intr` alone, which then has no value.
fn trigger_in<'a>(
    form: Form,
    trigger: Trigger,
    value: &Option<Assigned<'a>>,
    place: Place,
) -> Result<Setting<'a>, Fault>
    ensures outcome { (scope : Scope) → outcome_in scope result ≡ meanings.from_trigger form place trigger value.now }
    ensures stands { (body : ℕ) → IfOk result (StandsIn body) }
{
    match (form, value) {
        (Form::Intr, None) => Ok(Setting::Intr(trigger)),
        _ => bad_value(place),
    }
}

/// What an assignment gives a property, whose name it has, in the body of this number: the first failure of the value by a V rule,
/// else P8 for an enumeration that isn't visible, else P6 where the property's row doesn't take it (SystemRDL 2.0, 5.1.3). P6 and
/// P8 stand at the assignment. It takes no memory.
pub fn meaning_of<'a>(
    prop: Prop,
    set: &'a Set<'a>,
    body: u32,
    visible: &Chain<'_, '_, '_, 'a>,
) -> Result<Setting<'a>, Fault>
    ensures outcome { (scope : Scope) → IsShown visible.now (around scope) → outcome_in scope result ≡ meanings.meaning prop (record { set_ = set.now; scope = scope }) }
    ensures stands { IfOk result (StandsIn body) }
{
    match set.trigger {
        Some(trigger) => trigger_in(takes(prop), trigger, &set.value, set.place),
        None => given_in(takes(prop), &set.value, set.place, body, visible),
    }
}
