//! What the rules on the meaning of settings give a block's fields and views.

ghost use Rattle.std.specs.Prelude.{◌≡◌, List, IsTrue};
ghost use Rattle.rdl_props.specs.Table.{takes_of};
ghost use Rattle.rdl_props.specs.declared.form.Form.TheVariants as form;
ghost use Rattle.rdl_props.specs.declared.prop.Prop.{Prop};
ghost use Rattle.rdl_tree.specs.declared.item.Source.{Source};
ghost use Rattle.rdl_values.specs.Instances.{Instance};
ghost use Rattle.rdl_values.specs.Lineages.{Lineage};
ghost use Rattle.rdl_rules.specs.Feeds.{gate_at};
ghost use Rattle.rdl_rules.specs.Fields.{field_of};
ghost use Rattle.rdl_rules.specs.Numbers.{Numbered};
ghost use Rattle.rb_model.specs.SoundField.{FieldIsSound, is_gate_fed};
ghost use Rattle.rdl_sound_laws.specs.Faultless.{IsFaultless, Leads};

use rdl_layers::settings_have_forms;

/// A field of which no rule fails, and whose references lead to items, is sound by itself.
pub fn fields_are_sound()
    ensures { (s : Source) (all : List Lineage) (r : Numbered Lineage) (f : Instance) → IsFaultless all f → FieldIsSound (field_of s all r f) }
{
    settings_have_forms();
}

/// A gate is fed where references lead to items.
pub fn gates_are_fed()
    ensures { (all : List Lineage) (n : Instance) (high low : Prop) → takes_of high ≡ form.FlagRefer → takes_of low ≡ form.FlagRefer → Leads all n → IsTrue (is_gate_fed (gate_at all n high low)) }
{
    settings_have_forms();
}
