//! What the definitions of views determine.

ghost use Rattle.std.specs.Prelude.{◌≡◌, ◌&&◌, ◌||◌, List};
ghost use Rattle.std.specs.List.{list_any};
ghost use Rattle.rdl_values.specs.Instances.{Instance};
ghost use Rattle.rdl_values.specs.Uses.{same_name};
ghost use Rattle.rdl_layers.specs.Fields.{aliases, fields_of, is_touched, views};
ghost use Rattle.rdl_fields.specs.Touched.{touches};

/// Software touches a field through itself, or through a field of its name in an alias of its register.
pub fn touched_by_views()
    ensures { (all : List Instance) (r f : Instance) → is_touched (views all r f) ≡ (touches f || list_any (λ a. list_any (λ g. same_name g.use_.name f.use_.name && touches g) (fields_of a)) (aliases all r)) }
{}
