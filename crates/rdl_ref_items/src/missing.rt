//! Which items are there.

ghost use Rattle.std.specs.Prelude.{◌≡◌};
ghost use Rattle.rdl_refs.specs.Follows as follows;
ghost use Rattle.rdl_refs.specs.Items.{Item};
ghost use Rattle.rdl_ref_items.specs.InterruptOutputs.{AreInterruptOutputs};
ghost use Rattle.rdl_ref_items.specs.Named.{IsItemAt};
ghost use Rattle.rdl_values.specs.Elaboration.{IsClean};

use crate::interrupt_outputs::InterruptOutputs;
use rdl_fields::has;
use rdl_layers::Props;
use rdl_props::Prop;
use rdl_refs::{ItemOf, What};

/// Whether an item isn't there: of a counter where the field is none, of interrupts where the register has none.
pub fn is_missing(props: &Props<'_>, marks: &[InterruptOutputs], item: ItemOf) -> bool
    requires clean { IsClean props.now }
    requires marks { AreInterruptOutputs props.now marks.now }
    requires item { (i : Item) × IsItemAt props.now i item }
    ensures { (i : Item) → IsItemAt props.now i item → result ≡ follows.is_missing i }
{
    let counts = has(props, item.node, Prop::Counter);
    match item.what {
        What::IncrThreshold => !counts,
        What::DecrThreshold => !counts,
        What::Overflow => !counts,
        What::Underflow => !counts,
        What::Intr => !marks[item.node as usize].interrupts,
        What::Halt => !marks[item.node as usize].halts,
        _ => false,
    }
}
