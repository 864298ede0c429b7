//! What the failures of registers make together.

ghost use Rattle.std.specs.Prelude.{◌↔◌, Contains, List, flat_map};
ghost use Rattle.rdl_base.specs.declared.fault.Fault.{Fault};
ghost use Rattle.rdl_tree.specs.declared.node.Elab.{Elab};
ghost use Rattle.rdl_values.specs.Elaborated.{nodes_of};
ghost use Rattle.rdl_values.specs.Elaboration.{IsClean};
ghost use Rattle.rdl_nodes.specs.declared.table.Row.{Row};
ghost use Rattle.rdl_nodes.specs.Rows.{AreRows};
ghost use Rattle.rdl_rules.specs.Numbers.{registers};
ghost use Rattle.rdl_rules.specs.RegisterRules.{of_register};
ghost use Rattle.rdl_field_rules.specs.Judged.{register_failures};

use rdl_values::primaries_stand;

/// The failures of all registers, each judged with its primary where it is an alias, are those of the definitions, which judge each
/// primary with its views.
pub fn registers_agree()
    ensures { (e : Elab) (rows : List Row) → IsClean e → AreRows e rows → (f : Fault) → Contains (flat_map (register_failures (nodes_of e)) (registers (nodes_of e))) f ↔ Contains (flat_map (of_register (nodes_of e)) (registers (nodes_of e))) f }
{
    primaries_stand();
}
