//! What the definitions determine.

ghost use Rattle.std.specs.Prelude.{List, []};
ghost use Rattle.rb_grammar.specs.Forms.{Non, Fits};
ghost use Rattle.rdl_tree.specs.declared.item.Item as tree;
ghost use Rattle.rdl_tree.specs.declared.token.Token as tokens;
ghost use Rattle.rdl_tree.specs.Grammar.{Source, grammar};
ghost use Rattle.rdl_tree.specs.InOrder.{AreWords, IsInOrder, NamesAreWords, PlacesRise};
ghost use Rattle.rdl_tree.specs.Tree.{DerivesItems};

/// Tokens that derive the items of a tree are a source of the grammar.
pub fn derived_is_source()
    ensures { (ts : List tokens.Token) (items : List tree.Item) → DerivesItems ts [] items → Fits grammar (Non Source) ts }
{}

/// Where the places of tokens rise, the items of the tree that they derive are in order; and where the names among them are
/// words, so are those of its definitions and instances.
pub fn derived_in_order()
    ensures order { (ts : List tokens.Token) (items : List tree.Item) → PlacesRise ts → DerivesItems ts [] items → IsInOrder items }
    ensures words { (ts : List tokens.Token) (items : List tree.Item) → NamesAreWords ts → DerivesItems ts [] items → AreWords items }
{}
