//! On which nodes settings stand.

ghost use Rattle.std.specs.Prelude.{◌≡◌, List, Option, ℕ};
ghost use Rattle.std.specs.List.{AllByRecursion};
ghost use Rattle.rb_base.specs.declared.place.Place.{Place};
ghost use Rattle.rdl_props.specs.declared.prop.Prop.{Prop};
ghost use Rattle.rdl_tree.specs.declared.expr.Name.{Name};
ghost use Rattle.rdl_tree.specs.declared.expr.Path.{Path};
ghost use Rattle.rdl_tree.specs.declared.item.Kind.TheVariants as kind;
ghost use Rattle.rdl_tree.specs.declared.item.Source.{Source};
ghost use Rattle.rdl_values.specs.Bodies.{Scope};
ghost use Rattle.rdl_values.specs.Instances.{Instance, kind_of, nodes};
ghost use Rattle.rdl_layers.specs.Forms.{reference};
ghost use Rattle.rdl_layers.specs.Settings.{setting};

use rdl_layers::references_stand_where_taken;

/// Only fields have settings that are references: the properties that take them are legal on nothing else.
pub fn references_stand_on_fields()
    ensures { (wanted : Option (List ℕ)) (s : Source) → AllByRecursion (λ n. (p : Prop) (q : Path) (item : Option Name) (scope : Scope) (place : Place) → setting n p ≡ reference q item scope place → kind_of n ≡ kind.Field) (nodes wanted s) }
{
    references_stand_where_taken();
}
