//! What entries determine.

ghost use Rattle.std.specs.Prelude.{◌≡◌, [], List};
ghost use Rattle.rdl_props.specs.declared.prop.Prop.{Prop};
ghost use Rattle.rdl_values.specs.Instances.{Instance};
ghost use Rattle.rdl_layers.specs.Says.{Says};
ghost use Rattle.rdl_layers.specs.Settings.{applied_to, setting};
ghost use Rattle.rdl_layers.specs.Tables.{setting_in};
ghost use Rattle.rdl_layers.specs.declared.props.PropSetting.{PropSetting};
ghost use Rattle.rdl_merge.specs.Merged.{AreEntries};

use rdl_layers::first_related_decides;

/// No entries tell of no assignments. Entries that tell of all that apply to a node say what each of its properties is set to.
pub fn entries_say()
    ensures none { (all : List Instance) → AreEntries all [] [] }
    ensures settings { (all : List Instance) (n : Instance) (es : List PropSetting) → AreEntries all es (applied_to n) → (p : Prop) → Says all (setting_in p es) (setting n p) }
{
    first_related_decides();
}
