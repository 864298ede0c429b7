//! For all fields at once.

ghost use Rattle.std.specs.Prelude.{◌≡◌, ◌<◌, Bool, IfOk, IfSome, length};
ghost use Rattle.rdl_values.specs.Elaboration.{IsClean};
ghost use Rattle.rdl_values.specs.Instances.{Instance};
ghost use Rattle.rdl_nodes.specs.Rows.{AreRows};
ghost use Rattle.rdl_members.specs.Covered.{AreOverViews, AreTests, marked};

use crate::over_views::over_if;
use crate::table::members_of;
use rb_base::NoMemory;
use rdl_nodes::Row;
use rdl_tree::Elab;
use std::alloc::Global;

/// Marks a node, if there is one.
fn mark(marks: &mut [bool], node: Option<u32>)
    requires { IfSome node (λ k. k < length marks.old) }
    ensures { marks.new ≡ marked marks.old node }
{
    if let Some(node) = node {
        marks[node as usize] = true;
    }
}

/// For each node of a tree, of which these are the rows, whether one of the views of a field has a property, where it is known of each
/// node whether it has that itself. It says this of the fields of registers that are no aliases. The only error is want of memory.
/// Takes time in proportion to the number of nodes.
pub fn any_view<'a>(
    alloc: Global,
    elab: &Elab<'a>,
    rows: &[Row<'a>],
    own: &[bool],
) -> Result<Vec<bool>, NoMemory>
    requires clean { IsClean elab.now }
    requires rows { AreRows elab.now rows.now }
    requires sized { length own.now ≡ elab.now.count }
    ensures { IfOk result (λ marks. (test : Instance → Bool) → AreTests elab.now test own.now → AreOverViews elab.now test marks.items) }
{
    let members = members_of(alloc, elab, rows)?;
    let mut marks = own.to_vec(alloc)?;
    for at in 0..rows.len() {
        let over = over_if(&members, rows, &rows[at], own[at]);
        mark(&mut marks, over);
    }
    Ok(marks)
}
