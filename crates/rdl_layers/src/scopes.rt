//! The bodies round the texts of settings and of definitions.

ghost use Rattle.std.specs.Prelude.{◌≡◌, ◌∷◌, ◌++◌, [], List, None, Option, Some, map, ℕ};
ghost use Rattle.std.specs.List.{AllByRecursion};
ghost use Rattle.rdl_props.specs.declared.prop.Prop.{Prop};
ghost use Rattle.rdl_tree.specs.declared.item.Source.{Source};
ghost use Rattle.rdl_values.specs.Instances.{Instance, body, children, nodes, root, signals, top_of};
ghost use Rattle.rdl_layers.specs.Settings.{setting};
ghost use Rattle.rdl_layers.specs.Scoped.{IsEnd, IsScoped, bodies_of};

use rdl_values::scopes_are_bodies;

/// A setting that refers, or that names an enumeration, has its text in the body of the node, in one above it, or at the root: the
/// bodies round that text are among these.
pub fn settings_in_bodies()
    ensures { (wanted : Option (List ℕ)) (s : Source) → AllByRecursion (λ n. (p : Prop) → IsScoped (root s ∷ n.above ++ (body n ∷ [])) (setting n p)) (nodes wanted s) }
{
    scopes_are_bodies();
}

/// The text of a node's definition stands in bodies that are round its parent's body, or in that; that of a signal at the root and of
/// the top stands in the root's.
pub fn texts_in_bodies()
    ensures children_ { (n : Instance) → AllByRecursion (λ c. IsEnd (bodies_of c.closure.scope) (Some n.path ∷ bodies_of n.closure.scope)) (children n) }
    ensures signals_ { (s : Source) → AllByRecursion (λ n. bodies_of n.closure.scope ≡ None ∷ []) (signals s) }
    ensures top { (wanted : Option (List ℕ)) (s : Source) → AllByRecursion (λ n. bodies_of n.closure.scope ≡ None ∷ []) (top_of wanted s) }
{}
