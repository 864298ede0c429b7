//! The items that are wanted, in order.

ghost use Rattle.std.specs.Prelude.{◌≡◌, IfOk};
ghost use Rattle.rb_model.specs.Sound.{IsSound};
ghost use Rattle.block_plan.specs.Wanted.{AreInOrder, IsClosed};

use crate::needed::is_wanted;
use rb_base::NoMemory;
use rb_model::{Block, RefItem};
use std::alloc::Global;

/// The wanted items of a block, each behind those that it refers to. The only error is want of memory.
pub fn wanted_items(alloc: Global, block: &Block, wanted: &[bool]) -> Result<Vec<RefItem>, NoMemory>
    requires sound { IsSound block.now }
    requires closed { IsClosed block.now wanted.now }
    ensures { IfOk result (λ list. AreInOrder block.now wanted.now list.items) }
{
    let mut list = Vec::new(alloc);
    for item in &block.order.items {
        if !is_wanted(wanted, *item) {
            continue;
        }
        list.push(*item)?;
    }
    Ok(list)
}
