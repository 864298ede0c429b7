//! What a source has in which no rule fails.

ghost use Rattle.std.specs.Prelude.{◌≡◌, ◌∷◌, [], true, Contains};
ghost use Rattle.std.specs.List.{AllByRecursion};
ghost use Rattle.rdl_props.specs.declared.prop.Prop.{Prop};
ghost use Rattle.rdl_props.specs.declared.prop.Prop.TheVariants as prop;
ghost use Rattle.rdl_tree.specs.declared.node.Elab.{Elab};
ghost use Rattle.rdl_values.specs.Elaborated.{nodes_of};
ghost use Rattle.rdl_values.specs.Elaboration.{IsClean};
ghost use Rattle.rdl_values.specs.Instances.{Instance};
ghost use Rattle.rdl_values.specs.Lineages.{lineages_of};
ghost use Rattle.rdl_values.specs.Verdict.{IsListOf};
ghost use Rattle.rdl_layers.specs.Answers.{IsSettled};
ghost use Rattle.rdl_layers.specs.Fields.{has_one_of, is_interrupt};
ghost use Rattle.rdl_layers.specs.Settings.{setting};
ghost use Rattle.rdl_refs.specs.Answers.{IsBound};
ghost use Rattle.rdl_refs.specs.Items.{Item, target};
ghost use Rattle.rdl_rules.specs.Answers.{meaning_fails};
ghost use Rattle.rdl_rules.specs.Numbers.{all_fields};
ghost use Rattle.rdl_sound_laws.specs.Faultless.{IsFaultless, Leads};
ghost use Rattle.rdl_sound_laws.specs.Meant.{IsMeant};

/// Where no rule fails, none fails of a field that is no alias's; each reference of a node leads to an item, which is there, is no
/// alias's, and is as wide as its property asks; and what is enabled or masked for halt is an interrupt.
pub fn clean_is_faultless()
    ensures fields_ { (e : Elab) → IsClean e → IsSettled e → IsBound e → IsListOf (meaning_fails e) [] → AllByRecursion (IsFaultless (lineages_of e)) (all_fields (nodes_of e)) }
    ensures leads { (e : Elab) (n : Instance) → IsBound e → Contains (nodes_of e) n → Leads (lineages_of e) n }
    ensures meant { (e : Elab) (n : Instance) (p : Prop) (i : Item) → IsListOf (meaning_fails e) [] → Contains (nodes_of e) n → Contains (target (lineages_of e) (setting n p)) i → IsMeant n p i }
    ensures halts { (e : Elab) (f : Instance) → IsListOf (meaning_fails e) [] → Contains (all_fields (nodes_of e)) f → has_one_of (prop.Haltenable ∷ prop.Haltmask ∷ []) f ≡ true → is_interrupt f ≡ true }
{}
