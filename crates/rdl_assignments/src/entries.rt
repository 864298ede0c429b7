//! The assignments of an enumeration's entry.

ghost use Rattle.std.specs.Prelude.{◌≡◌, OnOk};
ghost use Rattle.rdl_tree.specs.declared.item.Entry.{Entry};
ghost use Rattle.rdl_values.specs.Bodies.{Scope, around};
ghost use Rattle.rdl_failures.specs.Noted.{with_all};
ghost use Rattle.rdl_failures.specs.Shown.{IsShown};
ghost use Rattle.rdl_layers.specs.Phase4.{of_entry};

use crate::allowed::Allowed;
use crate::layer::Layer;
use rb_base::NoMemory;
use rdl_failures::Failures;
use rdl_tree::Set;
use rdl_values::Chain;
use std::alloc::Global;

/// Puts in all failures of the assignments of an enumeration's entry, on which a name and a description are legal.
pub fn judge_entry<'a>(
    alloc: Global,
    sets: &'a [Set<'a>],
    visible: &Chain<'_, '_, '_, 'a>,
    failures: &mut Failures,
) -> Result<(), NoMemory>
    ensures { OnOk result ((scope : Scope) (e : Entry) → e.sets.now ≡ sets.now → IsShown visible.now (around scope) → failures.new ≡ with_all (of_entry scope e) failures.old) }
{
    let mut layer = Layer::new(alloc);
    for set in sets {
        layer.read(set, Allowed::OnEntry, 0, visible, failures)?;
    }
    Ok(())
}
