//! What the definition of a verdict determines.

ghost use Rattle.std.specs.Prelude.{◌≡◌, ℕ, List, Option};
ghost use Rattle.rdl_base.specs.declared.fault.Fault.{Fault};
ghost use Rattle.rdl_tree.specs.declared.item.Source.{Source};
ghost use Rattle.rdl_values.specs.Verdict.{FirstOf};
ghost use Rattle.rdl_verdict.specs.Verdict.{tree_phases};

/// The verdict of a tree is one list.
pub fn one_list()
    ensures { (wanted : Option (List ℕ)) (s : Source) (k l : List Fault) → FirstOf (tree_phases wanted s) k → FirstOf (tree_phases wanted s) l → k ≡ l }
{}
