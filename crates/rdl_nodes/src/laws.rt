//! What the definitions of nodes determine.

ghost use Rattle.std.specs.Prelude.{◌≡◌, ◌≢◌, ℕ, ◌<◌, List, Option};
ghost use Rattle.std.specs.List.{AllPairs};
ghost use Rattle.rdl_tree.specs.declared.item.Source.{Source};
ghost use Rattle.rdl_tree.specs.InOrder.{AreWords};
ghost use Rattle.rdl_values.specs.Elaborated.{HasWords};
ghost use Rattle.rdl_values.specs.Instances.{nodes};
ghost use Rattle.rdl_values.specs.Lineages.{lineages, nodes_in};
ghost use Rattle.rdl_values.specs.Rows.{product, row};
ghost use Rattle.rdl_nodes.specs.Numbers.{AreWithin, number_in};

/// No two nodes of a source have the same path.
pub fn paths_differ()
    ensures { (wanted : Option (List ℕ)) (s : Source) → AllPairs (λ m n. m.path ≢ n.path) (nodes wanted s) }
{}

/// The nodes that are listed with their ancestors are all nodes, in order.
pub fn lineages_are_nodes()
    ensures { (wanted : Option (List ℕ)) (s : Source) → nodes_in (lineages wanted s) ≡ nodes wanted s }
{}

/// Where the names in a tree are words, as they are in each parsed tree, so are the names of its nodes.
pub fn names_are_words()
    ensures { (wanted : Option (List ℕ)) (s : Source) → AreWords s.items.now → HasWords wanted s }
{}

/// Indices within the dimensions of an array are those of exactly one element, whose number they give.
pub fn row_has_one_number()
    ensures within { (dims index : List ℕ) → AreWithin dims index → number_in dims index < product dims }
    ensures found { (dims index : List ℕ) → AreWithin dims index → row dims (number_in dims index) ≡ index }
    ensures once { (dims : List ℕ) (k : ℕ) → k < product dims → number_in dims (row dims k) ≡ k }
    ensures fits { (dims : List ℕ) (k : ℕ) → k < product dims → AreWithin dims (row dims k) }
{}
