//! Which of all bodies assign something to a node.

ghost use Rattle.std.specs.Prelude.{◌≡◌, List, Option, ℕ, map, flat_map};
ghost use Rattle.std.specs.List.{AllByRecursion};
ghost use Rattle.rdl_tree.specs.declared.item.Source.{Source};
ghost use Rattle.rdl_values.specs.Bodies.{standing};
ghost use Rattle.rdl_values.specs.Instances.{nodes};
ghost use Rattle.rdl_layers.specs.Settings.{from_above};
ghost use Rattle.rdl_layers.specs.Nested.{nested};

/// What the dynamic assignments in the bodies of all nodes, in order, assign to a node is what those in the bodies above it assign
/// to it, the top's first.
pub fn assigned_from_above()
    ensures { (wanted : Option (List ℕ)) (s : Source) → AllByRecursion (λ n. flat_map (from_above n) (map nested (nodes wanted s)) ≡ flat_map (from_above n) (standing n.above)) (nodes wanted s) }
{}
