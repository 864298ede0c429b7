//! The parts of a register's fields that a word shows.

ghost use Rattle.std.specs.Prelude.{◌≡◌, ◌+◌, ◌++◌, ◌<◌, ◌^◌, List, IfOk, OnOk, length, option_to_list};
ghost use Rattle.rdl_tree.specs.declared.node.Elab.{Elab as AnyElab};
ghost use Rattle.rdl_values.specs.Instances.{Instance};
ghost use Rattle.rdl_addr.specs.Bits.{Bits};
ghost use Rattle.rdl_rules.specs.Words as spec;
ghost use Rattle.rdl_fields.specs.Views.{AreViewsOf};

use rb_base::NoMemory;
use rb_model::{Slot, Slots};
use rdl_fields::View;
use std::alloc::Global;

/// The bits of a view, from the low to the high one of its register, that lie in a word of this width from a base on.
fn slot(view: u32, base: u8, width: u8, high: u8, low: u8) -> Option<Slot>
    requires some { 0 < width }
    requires within { base + width < 256 }
    ensures { (n : Instance) → option_to_list result ≡ spec.slot view base width (record { node = n; high = high; low = low }) }
{
    if low >= base + width || high < base {
        return None;
    }
    let first = base.max(low);
    let last = high.min(base + width - 1);
    Some(Slot {
        view,
        low: first - base,
        from: first - low,
        bits: (last + 1).saturating_sub(first),
    })
}

/// Adds what a word shows of a view.
fn add_slot(
    view: u32,
    base: u8,
    width: u8,
    high: u8,
    low: u8,
    slots: &mut Vec<Slot>,
) -> Result<(), NoMemory>
    requires some { 0 < width }
    requires within { base + width < 256 }
    ensures { OnOk result ((n : Instance) → slots.new.items ≡ slots.old.items ++ spec.slot view base width (record { node = n; high = high; low = low })) }
{
    if let Some(slot) = slot(view, base, width, high, low) {
        slots.push(slot)?;
    }
    Ok(())
}

/// What a word shows of the fields of a register, whose views have the numbers from this one on. The only error is want of memory.
pub(crate) fn slots(
    alloc: Global,
    first_view: u32,
    base: u8,
    width: u8,
    views: &[View<'_>],
) -> Result<Slots, NoMemory>
    requires some { 0 < width }
    requires within { base + width < 256 }
    requires numbers { first_view + length views.now < 2 ^ 32 }
    ensures { IfOk result (λ ss. (e : AnyElab) (bs : List Bits) → AreViewsOf e views.now bs → ss ≡ spec.slots_from first_view base width bs) }
{
    let mut items = Vec::new(alloc);
    let mut number = first_view;
    for view in views {
        add_slot(number, base, width, view.high, view.low, &mut items)?;
        number += 1;
    }
    Ok(Slots { items })
}
