//! The items that references mean.

ghost use Rattle.std.specs.Prelude.{◌≡◌, ◌∷◌, [], ℕ, true, false, Contains, List, Option};
ghost use Rattle.rb_base.specs.declared.place.Place.{Place};
ghost use Rattle.rdl_props.specs.declared.prop.Prop.TheVariants as prop;
ghost use Rattle.rdl_tree.specs.declared.expr.Name.{Name};
ghost use Rattle.rdl_tree.specs.declared.expr.Path.{Path};
ghost use Rattle.rdl_tree.specs.declared.item.Source.{Source};
ghost use Rattle.rdl_values.specs.Bodies.{Scope};
ghost use Rattle.rdl_values.specs.Instances.{Instance, nodes};
ghost use Rattle.rdl_values.specs.Lineages.{lineages};
ghost use Rattle.rdl_layers.specs.Fields.{has_one_of, is_interrupt};
ghost use Rattle.rdl_layers.specs.Forms.{reference};
ghost use Rattle.rdl_refs.specs.Follows.{is_in_alias, is_missing};
ghost use Rattle.rdl_refs.specs.Items.{Item, target};
ghost use Rattle.rdl_rules.specs.Numbers.{all_fields};
ghost use Rattle.rdl_sound_laws.specs.Standing.{HasItem};

/// The item that a reference means, where it isn't missing and isn't in an alias, is one that its node has in the block. Fields of the
/// block that are enabled or masked for halt are interrupts, as no other may be.
pub fn targets_have_items()
    ensures { (wanted : Option (List ℕ)) (s : Source) (p : Path) (item : Option Name) (scope : Scope) (place : Place) (i : Item)
        → ((f : Instance) → Contains (all_fields (nodes wanted s)) f → has_one_of (prop.Haltenable ∷ prop.Haltmask ∷ []) f ≡ true → is_interrupt f ≡ true)
        → Contains (target (lineages wanted s) (reference p item scope place)) i → is_missing i ≡ false → is_in_alias i ≡ false → HasItem (nodes wanted s) i }
{}
