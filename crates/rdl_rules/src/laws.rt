//! What the definitions of the rules determine.

ghost use Rattle.std.specs.Prelude.{◌≡◌, List, ◌++◌, flat_map};
ghost use Rattle.rdl_props.specs.Table.{props};
ghost use Rattle.rdl_values.specs.Instances.{Instance};
ghost use Rattle.rdl_values.specs.Lineages.{Lineage};
ghost use Rattle.rdl_rules.specs.ReferenceRules.{bad_target, of_references, wide_reset};

/// The properties that take references are all in which R3 to R5 can fail: over all properties come the same failures.
pub fn all_targets()
    ensures { (all : List Lineage) (n : Instance) → of_references all n ≡ flat_map (bad_target all n) props ++ wide_reset all n }
{}
