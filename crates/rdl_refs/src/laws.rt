//! What the definitions of references determine.

ghost use Rattle.std.specs.Prelude.{◌≡◌, ◌≤◌, ℕ, List, length, flat_map, Option, All};
ghost use Rattle.rdl_tree.specs.declared.expr.Path.{Path};
ghost use Rattle.rdl_tree.specs.declared.item.Source.{Source};
ghost use Rattle.rdl_props.specs.Table.{props};
ghost use Rattle.rdl_values.specs.Instances.{nodes};
ghost use Rattle.rdl_values.specs.Lineages.{lineages};
ghost use Rattle.rdl_layers.specs.Settings.{Meaning, setting};
ghost use Rattle.rdl_values.specs.Bodies.{Scope};
ghost use Rattle.rdl_refs.specs.Leads.{led_to};
ghost use Rattle.rdl_refs.specs.Graph.{Edges, ForEver, IsCircleOf, IsOrder};
ghost use Rattle.rdl_refs.specs.Items.{bad_reference, failures_r, target};

/// The properties that take references are all in which R1 and R2 can fail: over all properties come the same failures.
pub fn all_references()
    ensures { (wanted : Option (List ℕ)) (s : Source) → failures_r wanted s ≡ flat_map (λ n. flat_map (λ p. bad_reference (lineages wanted s) p (setting n p)) props) (nodes wanted s) }
{}

/// References can be followed for ever from each thing of a circle, and from none where an order exists.
pub fn circles_go_on()
    ensures circle { (edges : Edges) (circle : List ℕ) → IsCircleOf edges circle → All (ForEver edges) circle }
    ensures order { (edges : Edges) (order : List ℕ) → IsOrder edges order → (a : ℕ) → ¬ (ForEver edges a) }
{}

/// A reference leads to one node at most, and so it means one item at most.
pub fn one_target()
    ensures node { (wanted : Option (List ℕ)) (s : Source) (p : Path) (scope : Scope) → length (led_to (lineages wanted s) p scope) ≤ 1 }
    ensures item { (wanted : Option (List ℕ)) (s : Source) (m : Meaning) → length (target (lineages wanted s) m) ≤ 1 }
{}
