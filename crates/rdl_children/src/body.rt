//! The uses in a whole body.

ghost use Rattle.std.specs.Prelude.{◌≡◌, ◌++◌, List, IfOk, OnOk, flat_map, option_to_list};
ghost use Rattle.rdl_values.specs.Bodies.{Body};
ghost use Rattle.rdl_values.specs.Phase3.{of_use};
ghost use Rattle.rdl_values.specs.Uses.{seen};
ghost use Rattle.rdl_failures.specs.Noted.{with_all};
ghost use Rattle.rdl_scopes.specs.Scopes.{AreOpen};
ghost use Rattle.rdl_children.specs.ItemUses.{GivesAll, IsBodyScene, nearest_items};

use crate::item::{ItemUses, Surroundings, judge_item};
use rb_base::NoMemory;
use rdl_failures::Failures;
use rdl_tree::Item;
use rdl_uses::Earlier;
use std::alloc::Global;

// Puts the uses of an item behind the others, if it has any.
fn add<'a>(list: &mut Vec<ItemUses<'a>>, uses: Option<ItemUses<'a>>) -> Result<(), NoMemory>
    ensures { OnOk result (list.new.items ≡ list.old.items ++ option_to_list uses.entry) }
{
    match uses {
        Some(uses) => {
            list.push(uses)?;
            Ok(())
        }
        None => Ok(()),
    }
}

/// Puts in all failures of the uses in a body, and gives those that give nodes, in the order of the text.
pub fn judge_items<'a>(
    alloc: Global,
    items: &'a [Item<'a>],
    scene: &Surroundings<'_, 'a>,
    failures: &mut Failures,
) -> Result<Vec<ItemUses<'a>>, NoMemory>
    requires open { AreOpen scene.now.components.now }
    requires items { nearest_items scene.now.components.now scene.now.numbers.now ≡ items.now }
    ensures noted { IfOk result (λ r. (above : List Body) (b : Body) → IsBodyScene scene.now items.now b → failures.new ≡ with_all (flat_map of_use (seen above b)) failures.old) }
    ensures given { IfOk result (λ r. (above : List Body) (b : Body) → IsBodyScene scene.now items.now b → GivesAll scene.now r.items (seen above b)) }
{
    let mut earlier = Earlier::new(alloc);
    let mut list = Vec::new(alloc);
    for (position, item) in items.iter().enumerate() {
        let uses = judge_item(alloc, item, position, scene, &mut earlier, failures)?;
        add(&mut list, uses)?;
    }
    Ok(list)
}
