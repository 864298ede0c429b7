//! Assignments at the root.

ghost use Rattle.std.specs.Prelude.{◌≡◌, flat_map, OnOk, IfOk};
ghost use Rattle.rdl_tree.specs.declared.item.Source.{Source};
ghost use Rattle.rdl_values.specs.Phase3.{bare_assignment, bare_assignments};
ghost use Rattle.rdl_values.specs.Views.{item_is};
ghost use Rattle.rdl_failures.specs.Noted.{IsNoted};

use rb_base::{NoMemory, Place};
use rdl_base::Rule;
use rdl_failures::Failures;
use rdl_tree::Item;

// Puts in E5 where an item is an assignment that is no default.
fn note_bare(item: &Item, failures: &mut Failures) -> Result<bool, NoMemory>
    ensures { IfOk result (λ clean. IsNoted (bare_assignment (item_is item.now)) clean failures.old failures.new) }
{
    match item {
        Item::Local(set) | Item::Dynamic { set, .. } => failures.note(true, Rule::E5, set.place),
        _ => Ok(true),
    }
}

/// Puts in E5 at each assignment at the root that is no default, and answers whether there is none.
pub fn judge_bare(items: &[Item], failures: &mut Failures) -> Result<bool, NoMemory>
    ensures { IfOk result (λ clean. (s : Source) → s.items.now ≡ items.now → IsNoted (bare_assignments s) clean failures.old failures.new) }
{
    let mut clean = true;
    for item in items {
        clean &= note_bare(item, failures)?;
    }
    Ok(clean)
}
