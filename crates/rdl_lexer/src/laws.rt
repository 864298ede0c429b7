//! What the definitions of lexemes determine.

ghost use Rattle.std.specs.Prelude.{ℕ, List, map};
ghost use Rattle.rb_grammar.specs.Spelling.{Spells};
ghost use Rattle.rdl_tree.specs.declared.token.Token.{Token};
ghost use Rattle.rdl_tree.specs.InOrder.{NamesAreWords, PlacesRise};
ghost use Rattle.rdl_lexer.specs.Lexemes.{seen, systemrdl};

/// The tokens of a text stand at rising places, and the names among them are words.
pub fn spelled_in_order()
    ensures places { (text : List ℕ) (ts : List Token) → Spells systemrdl text (map seen ts) → PlacesRise ts }
    ensures words { (text : List ℕ) (ts : List Token) → Spells systemrdl text (map seen ts) → NamesAreWords ts }
{}
