//! The rules on a field that isn't in an alias.

ghost use Rattle.std.specs.Prelude.{◌≡◌, ◌<◌, ◌≤◌, OnOk, Some, slice_get};
ghost use Rattle.rdl_values.specs.Elaborated.{nodes_of};
ghost use Rattle.rdl_values.specs.Instances.{Instance};
ghost use Rattle.rdl_failures.specs.Noted.{with_all};
ghost use Rattle.rdl_rules.specs.FieldRules.{of_primary};
ghost use Rattle.rdl_rules.specs.Facts.{IsFact};

use crate::interrupts::is_no_interrupt;
use crate::kinds::{is_mixed, is_no_counter, is_unread, lacks_writer};
use crate::numbers::is_too_wide;
use crate::pulse::is_bad_pulse;
use rb_base::{NoMemory, Place};
use rdl_base::Rule;
use rdl_failures::Failures;
use rdl_layers::Props;
use rdl_rules::Fact;

/// Puts in F1 and F5 to F10 of the field of this number, whose name stands at the place. The only error is want of memory.
pub fn judge_primary(
    props: &Props<'_>,
    node: u32,
    place: Place,
    fact: Fact,
    failures: &mut Failures,
) -> Result<(), NoMemory>
    requires number { node < props.now.count }
    requires width { fact.width ≤ 64 }
    ensures { OnOk result ((n : Instance) → slice_get (nodes_of props.now) node ≡ Some n → n.use_.name.place ≡ place → IsFact fact n → failures.new ≡ with_all (of_primary n) failures.old) }
{
    failures.note(is_unread(props, node), Rule::F1, place)?;
    failures.note(lacks_writer(props, node), Rule::F5, place)?;
    failures.note(is_no_counter(props, node), Rule::F6, place)?;
    failures.note(is_mixed(props, node), Rule::F7, place)?;
    failures.note(is_no_interrupt(props, node, fact), Rule::F8, place)?;
    failures.note(is_bad_pulse(props, node, fact), Rule::F9, place)?;
    failures.note(is_too_wide(props, node, fact), Rule::F10, place)?;
    Ok(())
}
