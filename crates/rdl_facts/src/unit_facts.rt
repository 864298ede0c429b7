//! The facts of one node.

ghost use Rattle.std.specs.Prelude.{◌≡◌, ◌≤◌, IfOk, List};
ghost use Rattle.std.specs.List.{list_any};
ghost use Rattle.rdl_values.specs.Bodies.{around};
ghost use Rattle.rdl_values.specs.Instances.{Instance, kind_of};
ghost use Rattle.rdl_failures.specs.Shown.{IsShown};
ghost use Rattle.rdl_layers.specs.Phase4 as phase;
ghost use Rattle.rdl_layers.specs.Settings.{applied_to, is_assigned};
ghost use Rattle.rdl_merge.specs.Merged.{AreEntries};
ghost use Rattle.rdl_merge.specs.Widths.{IsOfText};
ghost use Rattle.rdl_rules.specs.FieldRules.{encode_too_wide, interrupt_parts};
ghost use Rattle.rdl_rules.specs.Facts.{IsFact};

use rb_base::NoMemory;
use rdl_layers::PropSetting;
use rdl_merge::{has_entry, unit_width};
use rdl_props::Prop;
use rdl_rules::Fact;
use rdl_tree::{Inst, Kind};
use rdl_values::Chain;
use std::alloc::Global;

/// Whether a property that only an interrupt has is assigned in any layer, be it false or overridden.
pub fn has_parts(entries: &[PropSetting]) -> bool
    ensures { (all : List Instance) (n : Instance) → AreEntries all entries.now (applied_to n) → result ≡ list_any (is_assigned n) interrupt_parts }
{
    has_entry(entries, Prop::Sticky)
        | has_entry(entries, Prop::Stickybit)
        | has_entry(entries, Prop::Enable)
        | has_entry(entries, Prop::Mask)
        | has_entry(entries, Prop::Haltenable)
        | has_entry(entries, Prop::Haltmask)
}

/// The facts of a field or signal, from what decides its properties and from its text, which sees the names that are visible, where it is
/// known whether an entry of the enumeration that it is encoded by is too wide. They are its facts where it is as wide as P11 lets it be.
pub fn fact_of<'a>(
    alloc: Global,
    inst: &Inst<'a>,
    kind: Kind,
    entries: &[PropSetting],
    visible: &Chain<'_, '_, '_, 'a>,
    has_wide_entry: bool,
) -> Result<Fact, NoMemory>
    ensures narrow { IfOk result (λ fact. fact.width ≤ 64) }
    ensures fact { IfOk result (λ fact. (all : List Instance) (n : Instance) → AreEntries all entries.now (applied_to n) → kind_of n ≡ kind → IsOfText inst.now n → IsShown visible.now (around n.use_.scope) → phase.width_of n ≤ 64 → has_wide_entry ≡ encode_too_wide n → IsFact fact n) }
{
    let width = unit_width(alloc, inst, kind, entries, visible)?;
    Ok(Fact {
        width,
        has_parts: has_parts(entries),
        has_wide_entry,
    })
}
