//! The field that a field of an alias is a view of.

ghost use Rattle.std.specs.Prelude.{◌≡◌, ◌<◌, ◌&&◌, IfSome, Some, ℕ, slice_get};
ghost use Rattle.rdl_tree.specs.declared.node.Elab.{Elab as AnyElab};
ghost use Rattle.rdl_values.specs.Elaboration.{IsClean};
ghost use Rattle.rdl_values.specs.Instances.{Instance};
ghost use Rattle.rdl_values.specs.Lineages.{Lineage, lineages_of};
ghost use Rattle.rdl_nodes.specs.Rows.{AreRows, IsRow};
ghost use Rattle.rdl_fields.specs.Primary.{TellsPrimary};
ghost use Rattle.rdl_members.specs.Found.{AreMembersOf};
ghost use Rattle.rdl_members.specs.Covered.{IsKept, covers, is_at};

use crate::table::Members;
use rdl_fields::primary;
use rdl_nodes::Row;

fn first_of<'a>(rows: &[Row<'a>], node: u32) -> Option<Row<'a>>
    ensures { result ≡ slice_get rows.now node }
{
    rows.get(node as usize).copied()
}

/// The number of the field that a field of an alias is a view of: of its name, in the alias's primary.
fn over(members: &Members<'_>, rows: &[Row<'_>], row: &Row<'_>) -> Option<u32>
    ensures stands { IfSome result (λ k. (e : AnyElab) → AreMembersOf e members.now → k < e.count) }
    ensures covered { (e : AnyElab) (i k : ℕ) (g l : Lineage) (r : Instance) → IsClean e → AreRows e rows.now → AreMembersOf e members.now → slice_get (lineages_of e) i ≡ Some g → IsRow e (lineages_of e) i row.now g
        → IsKept e k l r → is_at result k ≡ covers r l.node g }
{
    if !row.node.kind.is_field() {
        return None;
    }
    let parent = row.parent?;
    let alias = first_of(rows, parent)?;
    let primary = primary(&alias)?;
    members.find(primary, row.node.name, row.node.index)
}

/// The same, where the field of the alias has the property.
pub(crate) fn over_if(
    members: &Members<'_>,
    rows: &[Row<'_>],
    row: &Row<'_>,
    has: bool,
) -> Option<u32>
    ensures stands { IfSome result (λ k. (e : AnyElab) → AreMembersOf e members.now → k < e.count) }
    ensures covered { (e : AnyElab) (i k : ℕ) (g l : Lineage) (r : Instance) → IsClean e → AreRows e rows.now → AreMembersOf e members.now → slice_get (lineages_of e) i ≡ Some g → IsRow e (lineages_of e) i row.now g
        → IsKept e k l r → is_at result k ≡ (covers r l.node g && has) }
{
    if !has {
        return None;
    }
    over(members, rows, row)
}
