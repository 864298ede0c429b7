//! What the grammar determines.

ghost use Rattle.std.specs.Prelude.{◌≡◌, List};
ghost use Rattle.rb_grammar.specs.Forms.{Non, Fits, choices};
ghost use Rattle.rb_grammar_example.specs.declared.token.Token.{Token};
ghost use Rattle.rb_grammar_example.specs.Grammar.{settings, Source};

/// A list of tokens is a source by one sequence of choices.
pub fn one_reading()
    ensures { (ts : List Token) (p q : Fits settings (Non Source) ts) → choices p ≡ choices q }
{}
