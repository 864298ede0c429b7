//! The register that a node is an alias of.

ghost use Rattle.std.specs.Prelude.{◌≡◌, ℕ, Some, slice_get};
ghost use Rattle.rdl_tree.specs.declared.node.Elab.{Elab};
ghost use Rattle.rdl_values.specs.Elaboration.{IsClean};
ghost use Rattle.rdl_values.specs.Lineages.{Lineage, lineages_of};
ghost use Rattle.rdl_nodes.specs.Rows.{IsRow};
ghost use Rattle.rdl_fields.specs.Primary.{TellsPrimary};

use rdl_nodes::Row;
use rdl_values::primaries_stand;

/// The number of the register that a node is an alias of, and none where it is no alias (SystemRDL 2.0, 10.5).
pub fn primary(row: &Row<'_>) -> Option<u32>
    ensures { (e : Elab) (k : ℕ) (l : Lineage) → IsClean e → slice_get (lineages_of e) k ≡ Some l → IsRow e (lineages_of e) k row.now l → TellsPrimary e l.node result }
{
    primaries_stand();
    row.node.alias
}
