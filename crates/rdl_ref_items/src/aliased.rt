//! Which items are in an alias.

ghost use Rattle.std.specs.Prelude.{◌≡◌, ℕ, Some, slice_get};
ghost use Rattle.rdl_tree.specs.declared.node.Elab.{Elab};
ghost use Rattle.rdl_values.specs.Elaboration.{IsClean};
ghost use Rattle.rdl_values.specs.Lineages.{Lineage, lineages_of};
ghost use Rattle.rdl_layers.specs.Fields as fields;
ghost use Rattle.rdl_nodes.specs.Rows.{AreRows, IsRow};
ghost use Rattle.rdl_refs.specs.Follows as follows;
ghost use Rattle.rdl_refs.specs.Items.{Item};
ghost use Rattle.rdl_ref_items.specs.Named.{IsItemAt};

use rdl_fields::primary;
use rdl_nodes::Row;
use rdl_refs::ItemOf;

/// Whether a node is an alias.
fn is_alias(row: &Row<'_>) -> bool
    ensures { (e : Elab) (k : ℕ) (l : Lineage) → IsClean e → slice_get (lineages_of e) k ≡ Some l → IsRow e (lineages_of e) k row.now l → result ≡ fields.is_alias l.node }
{
    primary(row).is_some()
}

/// Whether an item is one of an alias, or of a field in one.
pub fn is_in_alias(rows: &[Row<'_>], item: ItemOf) -> bool
    requires { (e : Elab) × IsClean e × AreRows e rows.now × ((i : Item) × IsItemAt e i item) }
    ensures { (e : Elab) (i : Item) → IsClean e → AreRows e rows.now → IsItemAt e i item → result ≡ follows.is_in_alias i }
{
    let row = &rows[item.node as usize];
    if is_alias(row) {
        return true;
    }
    if !row.node.kind.is_field() {
        return false;
    }
    let Some(parent) = row.parent else {
        return false;
    };
    let of = &rows[parent as usize];
    is_alias(of)
}
