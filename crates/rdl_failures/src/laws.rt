//! What the set of failures determines.

ghost use Rattle.std.specs.Prelude.{◌≡◌, List, [], ◌++◌, Contains};
ghost use Rattle.rdl_base.specs.declared.fault.Fault.{Fault};
ghost use Rattle.rdl_values.specs.Faults.{at_};
ghost use Rattle.rdl_values.specs.Verdict.{IsListOf};
ghost use Rattle.rdl_failures.specs.Noted.{Holds, with_all};

/// All failures put into the empty set are the list of what fails.
pub fn collected_once()
    ensures { (fs : List Fault) → IsListOf (λ rule place. Contains fs (at_ rule place)) (with_all fs []) }
{}

/// Failures of two parts are put in one after the other.
pub fn put_in_turn()
    ensures { (fs gs list : List Fault) → with_all (fs ++ gs) list ≡ with_all gs (with_all fs list) }
{}

/// Failures that were put in are held from then on, and putting in those that are held changes nothing.
pub fn found_again()
    ensures put { (fs list : List Fault) → Holds (with_all fs list) fs }
    ensures kept { (fs gs list : List Fault) → Holds list fs → Holds (with_all gs list) fs }
    ensures same { (fs list : List Fault) → Holds list fs → with_all fs list ≡ list }
{}
