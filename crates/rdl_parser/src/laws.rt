//! What the definitions determine.

ghost use Rattle.std.specs.Prelude.{◌≡◌, ℕ, List};
ghost use Rattle.rdl_parser.specs.declared.error.ParseError as errors;
ghost use Rattle.rdl_parser.specs.Verdicts.{IsAccepted, HasError};

/// A source has at most one error, and none where it is accepted.
pub fn one_verdict()
    ensures error { (text : List ℕ) (d e : errors.ParseError) → HasError text d → HasError text e → d ≡ e }
    ensures none { (text : List ℕ) (e : errors.ParseError) → IsAccepted text → HasError text e → ⊥ }
{}
