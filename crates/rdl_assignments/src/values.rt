//! Constants as values of properties.

ghost use Rattle.std.specs.Prelude.{◌≡◌, ℕ, IfSome, option_map};
ghost use Rattle.rdl_values.specs.Bodies.{Scope};
ghost use Rattle.rdl_values.specs.Seen.{val_of};
ghost use Rattle.rdl_values.specs.Values as values;
ghost use Rattle.rdl_layers.specs.Forms as forms;
ghost use Rattle.rdl_props.specs.declared.form.Form.TheVariants as row;
ghost use Rattle.rdl_assignments.specs.Meant.{StandsIn, meaning_in};

use rb_base::Trigger;
use rdl_layers::Setting;
use rdl_props::Form;
use rdl_tree::Value;

// A constant where a boolean is wanted.
fn flag_of(value: &Value) -> Option<bool>
    ensures { result ≡ values.as_flag (val_of value.now) }
{
    match value {
        Value::Number(number) => Some(*number != 0),
        Value::Flag(flag) => Some(*flag),
        Value::Str(_) => None,
    }
}

// A constant where a number is wanted.
fn number_of(value: &Value) -> Option<u64>
    ensures { result ≡ values.as_number (val_of value.now) }
{
    match value {
        Value::Number(number) => Some(*number),
        Value::Flag(flag) => Some(u64::from(*flag)),
        Value::Str(_) => None,
    }
}

// A string.
fn text_set<'a>(value: &Value<'a>) -> Option<Setting<'a>>
    ensures outcome { (scope : Scope) → option_map (meaning_in scope) result ≡ forms.from_value row.Str (val_of value.now) }
    ensures stands { (body : ℕ) → IfSome result (StandsIn body) }
{
    match value {
        Value::Str(text) => Some(Setting::Str(text)),
        _ => None,
    }
}

// A boolean.
fn flag_set<'a>(value: &Value) -> Option<Setting<'a>>
    ensures outcome { (scope : Scope) → option_map (meaning_in scope) result ≡ forms.from_value row.Flag (val_of value.now) }
    ensures stands { (body : ℕ) → IfSome result (StandsIn body) }
{
    match flag_of(value) {
        Some(flag) => Some(Setting::Flag(flag)),
        None => None,
    }
}

// The boolean true alone.
fn true_set<'a>(value: &Value) -> Option<Setting<'a>>
    ensures outcome { (scope : Scope) → option_map (meaning_in scope) result ≡ forms.from_value row.TrueOnly (val_of value.now) }
    ensures stands { (body : ℕ) → IfSome result (StandsIn body) }
{
    match flag_of(value) {
        Some(true) => Some(Setting::Flag(true)),
        _ => None,
    }
}

// A number.
fn number_set<'a>(value: &Value) -> Option<Setting<'a>>
    ensures outcome { (scope : Scope) → option_map (meaning_in scope) result ≡ forms.from_value row.Number (val_of value.now) }
    ensures stands { (body : ℕ) → IfSome result (StandsIn body) }
{
    match number_of(value) {
        Some(number) => Some(Setting::Number(number)),
        None => None,
    }
}

// A boolean or a number, as it is.
fn flag_or_number<'a>(value: &Value) -> Option<Setting<'a>>
    ensures outcome { (scope : Scope) → option_map (meaning_in scope) result ≡ forms.flag_or_number (val_of value.now) }
    ensures stands { (body : ℕ) → IfSome result (StandsIn body) }
{
    match value {
        Value::Number(number) => Some(Setting::Number(*number)),
        Value::Flag(flag) => Some(Setting::Flag(*flag)),
        Value::Str(_) => None,
    }
}

// An interrupt without a trigger word.
fn intr_set<'a>(value: &Value) -> Option<Setting<'a>>
    ensures outcome { (scope : Scope) → option_map (meaning_in scope) result ≡ forms.from_value row.Intr (val_of value.now) }
    ensures stands { (body : ℕ) → IfSome result (StandsIn body) }
{
    match flag_of(value) {
        Some(true) => Some(Setting::Intr(Trigger::Level)),
        Some(false) => Some(Setting::Flag(false)),
        None => None,
    }
}

/// What a constant is where a value of this form is taken, if it is one: where a boolean is taken and no number, a number is true
/// unless it is 0, and where a number is taken and no boolean, a boolean is 0 or 1.
pub(crate) fn value_in<'a>(form: Form, value: &Value<'a>) -> Option<Setting<'a>>
    ensures outcome { (scope : Scope) → option_map (meaning_in scope) result ≡ forms.from_value form (val_of value.now) }
    ensures stands { (body : ℕ) → IfSome result (StandsIn body) }
{
    match form {
        Form::Str => text_set(value),
        Form::Flag => flag_set(value),
        Form::FlagRefer => flag_set(value),
        Form::TrueOnly => true_set(value),
        Form::Number => number_set(value),
        Form::NumberRefer => number_set(value),
        Form::FlagNumber => flag_or_number(value),
        Form::FlagNumberRefer => flag_or_number(value),
        Form::Intr => intr_set(value),
        _ => None,
    }
}
