//! What targets determine.

ghost use Rattle.std.specs.Prelude.{◌≡◌, Bool, List, filter, map};
ghost use Rattle.std.specs.List.{list_any};
ghost use Rattle.rdl_props.specs.declared.prop.Prop.{Prop};
ghost use Rattle.rdl_layers.specs.Assignments.{Dynamic, Nested, meet, targets};
ghost use Rattle.rdl_layers.specs.Judged.{props_of};
ghost use Rattle.rdl_dynamic.specs.Marked.{assigned_at};

/// Of the earlier dynamic assignments that share a node with one, some property passes a test exactly where at one of its targets some
/// property that is assigned there does: so what is assigned at each node is all that rules P4 and P5 ask for.
pub fn met_at_targets()
    ensures { (f : Prop → Bool) (b : Nested) (d : Dynamic) (earlier : List Dynamic) → list_any (λ n. list_any f (assigned_at b earlier n)) (targets b d) ≡ list_any f (props_of (map (λ e. e.assigns) (filter (meet b d) earlier))) }
{}
