//! What the problems of a module determine.

ghost use Rattle.std.specs.Prelude.{◌≡◌, ℕ, List};
ghost use Rattle.rb_grammar.specs.Spelling.{At, tokens_of as spelled};
ghost use Rattle.v_design.specs.Lexemes.{Token};
ghost use Rattle.v_design.specs.Tree.{Tree, tokens_of};
ghost use Rattle.v_design.specs.WellFormed.{IsWellFormed};
ghost use Rattle.v_syntax.specs.Faulty.{Faulty, IsFirst, Problem};

/// A tree that has a problem at a place is not well-formed.
pub fn a_problem_is_a_fault()
    ensures { (t : Tree) (ts : List (At Token)) → spelled ts ≡ tokens_of t
        → (p : Problem) (k : ℕ) → Faulty t ts p k → IsWellFormed t → ⊥ }
{}

/// A tree has at most one first problem, at one place.
pub fn one_first_problem()
    ensures { (t : Tree) (ts : List (At Token)) (p q : Problem) (j k : ℕ)
        → IsFirst t ts p j → IsFirst t ts q k → (p ≡ q) × (j ≡ k) }
{}
