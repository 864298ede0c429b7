//! The order of the fields of a block.

ghost use Rattle.std.specs.Prelude.{◌≡◌, ℕ, List, Option, filter, map};
ghost use Rattle.rdl_tree.specs.declared.item.Source.{Source};
ghost use Rattle.rdl_values.specs.Instances.{nodes};
ghost use Rattle.rdl_values.specs.Lineages.{lineages};
ghost use Rattle.rdl_rules.specs.Numbers.{all_fields};
ghost use Rattle.rdl_block_numbers.specs.Listed.{is_own_field};

/// The fields of a block are those nodes, in node order, that are fields in registers which are no aliases.
pub fn fields_in_order()
    ensures { (wanted : Option (List ℕ)) (s : Source) → all_fields (nodes wanted s) ≡ map (λ l. l.node) (filter is_own_field (lineages wanted s)) }
{}
