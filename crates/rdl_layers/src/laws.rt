//! What the definitions of settings determine.

ghost use Rattle.std.specs.Prelude.{◌≡◌, false, [], ◌∷◌, ◌++◌, filter, find, Option};
ghost use Rattle.rdl_props.specs.Table.{props, reference_props, takes_of};
ghost use Rattle.rdl_props.specs.declared.prop.Prop.{Prop};
ghost use Rattle.rdl_values.specs.Instances.{Instance};
ghost use Rattle.rb_base.specs.declared.place.Place.{Place};
ghost use Rattle.rdl_tree.specs.declared.expr.Name.{Name};
ghost use Rattle.rdl_tree.specs.declared.expr.Path.{Path};
ghost use Rattle.rdl_values.specs.Bodies.{Scope};
ghost use Rattle.rdl_layers.specs.Formed.{IsOfForm};
ghost use Rattle.rdl_layers.specs.Forms.{reference, takes_reference};
ghost use Rattle.rdl_layers.specs.Settings.{Meaning, applied, applied_to, deciding_of, setting};
ghost use Rattle.rdl_layers.specs.Ranks.{is_related};
ghost use Rattle.rdl_layers.specs.declared.rank.Rank.TheVariants as rank;

/// A setting has the form that its property's row takes.
pub fn settings_have_forms()
    ensures { (n : Instance) (p : Prop) → IsOfForm (takes_of p) (setting n p) }
{}

/// Of the assignments that apply to a node, as the definitions list them, and the table's default behind them, the first one of
/// the property or of one that excludes it decides.
pub fn first_related_decides()
    ensures { (n : Instance) (p : Prop) (default : Meaning) → deciding_of p (applied_to n ++ (applied rank.Table p default ∷ []))
        ≡ find (λ a. is_related p a.candidate.prop) (applied_to n ++ (applied rank.Table p default ∷ [])) }
{}

/// A setting is a reference only where the row of its property takes one, which are the properties listed as such.
pub fn references_stand_where_taken()
    ensures only { (n : Instance) (p : Prop) (q : Path) (item : Option Name) (scope : Scope) (place : Place) → takes_reference (takes_of p) ≡ false
        → setting n p ≡ reference q item scope place → ⊥ }
    ensures listed { filter (λ p. takes_reference (takes_of p)) props ≡ reference_props }
{}
