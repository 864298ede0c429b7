//! Which nodes a list of a block has.

ghost use Rattle.std.specs.Prelude.{◌≡◌, ℕ, IfOk, List, Some, map, slice_get};
ghost use Rattle.rdl_tree.specs.declared.node.Elab.{Elab as AnyElab};
ghost use Rattle.rdl_values.specs.Elaboration.{IsClean};
ghost use Rattle.rdl_values.specs.Instances.{Instance};
ghost use Rattle.rdl_values.specs.Lineages.{Lineage, lineages_of};
ghost use Rattle.rdl_nodes.specs.Rows.{AreRows, IsParent, IsRow};
ghost use Rattle.rdl_block_numbers.specs.Listed as lists;

use rb_base::NoMemory;
use rdl_fields::primary;
use rdl_nodes::Row;
use rdl_tree::{Elab, Kind};
use std::alloc::Global;

/// A list of a block.
#[derive(Clone, Copy)]
pub(crate) enum Listing {
    Signals,
    Fields,
    Registers,
}

/// The row of a number, if there is one.
pub(crate) fn row_of<'a>(rows: &[Row<'a>], node: u32) -> Option<Row<'a>>
    ensures { result ≡ slice_get rows.now node }
{
    rows.get(node as usize).copied()
}

/// Whether a node is a register that is no alias.
fn is_primary(row: &Row<'_>) -> bool
    ensures { (e : AnyElab) (k : ℕ) (l : Lineage) → IsClean e → slice_get (lineages_of e) k ≡ Some l → IsRow e (lineages_of e) k row.now l → result ≡ lists.is_primary l.node }
{
    row.node.kind.is_register() & !primary(row).is_some()
}

/// Whether the node that another stands in is a register that is no alias.
fn in_primary(rows: &[Row<'_>], parent: Option<u32>) -> bool
    ensures { (e : AnyElab) (up : List Instance) → IsClean e → AreRows e rows.now → IsParent (lineages_of e) parent up → result ≡ lists.in_primary up }
{
    let Some(parent) = parent else {
        return false;
    };
    let Some(row) = row_of(rows, parent) else {
        return false;
    };
    is_primary(&row)
}

/// Whether a node is a field of a register that is no alias.
fn is_own_field(rows: &[Row<'_>], row: &Row<'_>) -> bool
    ensures { (e : AnyElab) (k : ℕ) (l : Lineage) → IsClean e → AreRows e rows.now → IsRow e (lineages_of e) k row.now l → result ≡ lists.is_own_field l }
{
    let is_field = row.node.kind == Kind::Field;
    let in_primary = in_primary(rows, row.parent);
    is_field & in_primary
}

/// Whether a list has a node.
fn is_listed(rows: &[Row<'_>], row: &Row<'_>, listing: Listing) -> bool
    ensures { (e : AnyElab) (k : ℕ) (l : Lineage) → IsClean e → AreRows e rows.now → IsRow e (lineages_of e) k row.now l → result ≡ lists.is_listed listing l }
{
    match listing {
        Listing::Signals => row.node.kind == Kind::Signal,
        Listing::Fields => is_own_field(rows, row),
        Listing::Registers => row.node.kind.is_register(),
    }
}

/// For each node of a tree, of which these are the rows, whether a list has it. The only error is want of memory.
pub(crate) fn marks(
    alloc: Global,
    elab: &Elab<'_>,
    rows: &[Row<'_>],
    listing: Listing,
) -> Result<Vec<bool>, NoMemory>
    requires clean { IsClean elab.now }
    requires rows { AreRows elab.now rows.now }
    ensures { IfOk result (λ ms. ms.items ≡ map (lists.is_listed listing) (lineages_of elab.now)) }
{
    let mut marks = Vec::new(alloc);
    for at in 0..rows.len() {
        let row = &rows[at];
        marks.push(is_listed(rows, row, listing))?;
    }
    Ok(marks)
}
