//! A setting in another body.

ghost use Rattle.std.specs.Prelude.{◌≡◌, ℕ, List};
ghost use Rattle.rdl_values.specs.Bodies.{Scope};
ghost use Rattle.rdl_values.specs.Instances.{Instance};
ghost use Rattle.rdl_layers.specs.declared.setting.Setting.{Setting as AnySetting};
ghost use Rattle.rdl_layers.specs.Says.{IsScopeNumber, Says};
ghost use Rattle.rdl_assignments.specs.Meant.{StandsIn, meaning_in};

use rdl_layers::Setting;

/// The same setting where the assignment's text stands in the body of this number.
pub fn moved<'a>(setting: Setting<'a>, body: u32) -> Setting<'a>
    ensures same { (scope : Scope) → meaning_in scope result ≡ meaning_in scope setting.entry }
    ensures stands { StandsIn body result }
{
    match setting {
        Setting::EnumOf { name, .. } => Setting::EnumOf { name, scope: body },
        Setting::Ref {
            path,
            item,
            place,
            ..
        } => Setting::Ref {
            path,
            item,
            scope: body,
            place,
        },
        _ => setting,
    }
}

/// A setting that stands in the body of a number says what it means in the bodies round its text, of which that is the nearest.
pub fn settings_say()
    ensures { (all : List Instance) (body : ℕ) (scope : Scope) (s : AnySetting) → StandsIn body s → IsScopeNumber all scope body → Says all s (meaning_in scope s) }
{}
