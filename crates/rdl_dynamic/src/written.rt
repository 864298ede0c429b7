//! Dynamic assignments as they are written.

ghost use Rattle.std.specs.Prelude.{◌≡◌, ◌++◌, IfOk, OnOk, map};
ghost use Rattle.rdl_values.specs.Views.{item_is};
ghost use Rattle.rdl_dynamic.specs.Written.{AreWritten, parts_of, written_in};

use rb_base::NoMemory;
use rdl_tree::{Item, Path, Set};
use std::alloc::Global;

/// A dynamic assignment: its target, and what it assigns there.
#[derive(Clone, Copy)]
pub struct Written<'a> {
    pub target: &'a Path<'a>,
    pub assigned: &'a Set<'a>,
}

// Puts what an item assigns to nodes below behind others.
fn add_written<'a>(list: &mut Vec<Written<'a>>, item: &'a Item<'a>) -> Result<(), NoMemory>
    ensures { OnOk result (map parts_of list.new.items ≡ map parts_of list.old.items ++ written_in (item_is item.now)) }
{
    match item {
        Item::Dynamic { target, set } => {
            list.push(Written {
                target,
                assigned: set,
            })?;
            Ok(())
        }
        _ => Ok(()),
    }
}

/// The dynamic assignments among the items of a body, in order. The only error is want of memory.
pub fn written_among<'a>(alloc: Global, items: &'a [Item<'a>]) -> Result<Vec<Written<'a>>, NoMemory>
    ensures { IfOk result (λ r. AreWritten r.items items.now) }
{
    let mut list = Vec::new(alloc);
    for item in items {
        add_written(&mut list, item)?;
    }
    Ok(list)
}
