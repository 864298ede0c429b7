//! The forms of instances.

ghost use Rattle.std.specs.Prelude.{◌≡◌, [], true, ℕ, Contains, List, Option, is_some};
ghost use Rattle.rdl_tree.specs.declared.item.Item as tree;
ghost use Rattle.rdl_tree.specs.declared.item.Source.{Source};
ghost use Rattle.rdl_tree.specs.declared.token.Token as tokens;
ghost use Rattle.rdl_tree.specs.Tree.{DerivesItems};
ghost use Rattle.rdl_values.specs.Instances.{Instance, nodes};
ghost use Rattle.rdl_nodes.specs.Single.{AreSingle};

/// In the tree that tokens derive, no instance with a range has a bracket.
pub fn derived_forms_are_single()
    ensures { (ts : List tokens.Token) (items : List tree.Item) → DerivesItems ts [] items → AreSingle items }
{}

/// Where that is so of a source, it is so of its nodes.
pub fn forms_are_single()
    ensures { (wanted : Option (List ℕ)) (s : Source) → AreSingle s.items.now → (n : Instance) → Contains (nodes wanted s) n → is_some n.use_.form.range ≡ true → n.use_.dims ≡ [] }
{}
