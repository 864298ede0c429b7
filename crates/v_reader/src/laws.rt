//! What the definitions determine.

ghost use Rattle.std.specs.Prelude.{◌≡◌, ℕ, List};
ghost use Rattle.v_design.specs.Tree.{Tree, IsTree};
ghost use Rattle.v_design.specs.WellFormed.{IsWellFormed};
ghost use Rattle.v_syntax.specs.Failing.{Fails};
ghost use Rattle.v_syntax.specs.declared.error.VError.{VError};

/// Bytes fail in one way at one place.
pub fn one_failure()
    ensures { (bytes : List ℕ) (e f : VError) → Fails bytes e → Fails bytes f → e ≡ f }
{}

/// Bytes that fail are no well-formed module.
pub fn failure_is_no_module()
    ensures { (bytes : List ℕ) (e : VError) (t : Tree) → Fails bytes e → IsTree bytes t → IsWellFormed t → ⊥ }
{}
