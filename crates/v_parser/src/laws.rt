//! What the grammar and the tree have in common.

ghost use Rattle.std.specs.Prelude.{◌≡◌, List};
ghost use Rattle.rb_grammar.specs.Forms.{Non, Fits};
ghost use Rattle.rb_grammar.specs.Spelling.{At, tokens_of};
ghost use Rattle.v_design.specs.Lexemes.{Token};
ghost use Rattle.v_design.specs.Tree.{Tree};
ghost use Rattle.v_design.specs.Tree as tree;
ghost use Rattle.v_syntax.specs.Grammar.{grammar, Module};
ghost use Rattle.v_syntax.specs.Syntax.{IsShaped};

/// The tokens of a module tree fit the grammar.
pub fn tree_fits()
    ensures { (t : Tree) → IsShaped t → (ts : List (At Token)) → tokens_of ts ≡ tree.tokens_of t → Fits grammar (Non Module) ts }
{}
