//! What the states tell of the grammar.

ghost use Rattle.std.specs.Prelude.{◌≡◌, ◌↔◌, IsSome, Some, List};
ghost use Rattle.rb_grammar.specs.Forms.{Non, Fits, Begins};
ghost use Rattle.vcd_syntax.specs.declared.kind.Kind.{Kind};
ghost use Rattle.vcd_syntax.specs.Grammar.{grammar, Dump};
ghost use Rattle.vcd_syntax.specs.Tokens.{Word, Token, AreBegun};
ghost use Rattle.vcd_syntax.specs.Exits.{after_all};

use crate::state::State;

/// Kinds begin a dump exactly where they lead from state to state, and are one exactly where they lead to the entries.
pub fn kinds_by_states()
    ensures begin { (ks : List Kind) → Begins grammar (Non Dump) ks ↔ IsSome (after_all State.Front ks) }
    ensures fit { (ks : List Kind) → Fits grammar (Non Dump) ks ↔ (after_all State.Front ks ≡ Some State.Entries) }
{}

/// The words that begin a dump stand for their kinds in one way.
pub fn one_marking()
    ensures { (words : List Word) (ms ns : List Token) → AreBegun words ms → AreBegun words ns → ms ≡ ns }
{}
