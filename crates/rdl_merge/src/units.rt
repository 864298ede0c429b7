//! The widths of fields and signals.

ghost use Rattle.std.specs.Prelude.{◌≡◌, ◌≤◌, ◌⊎◌, ◌==◌, ◌||◌, ◌++◌, [], ◌∷◌, not, List, IfOk, OnOk, nat_lt, option_to_list};
ghost use Rattle.std.specs.List.{list_any};
ghost use Rattle.rdl_tree.specs.declared.item.Kind.TheVariants as kinds;
ghost use Rattle.rdl_values.specs.Bodies.{around};
ghost use Rattle.rdl_values.specs.Instances.{Instance, kind_of};
ghost use Rattle.rdl_failures.specs.Noted.{with_all};
ghost use Rattle.rdl_failures.specs.Shown.{IsShown};
ghost use Rattle.rdl_layers.specs.Phase4 as phase;
ghost use Rattle.rdl_layers.specs.Settings.{applied_to};
ghost use Rattle.rdl_merge.specs.Merged.{AreEntries};
ghost use Rattle.rdl_merge.specs.Widths.{IsOfText, is_bad};

use crate::settings::assigned_number;
use crate::texts::{form_widths, range_seen};
use rb_base::{NoMemory, Place};
use rdl_base::Rule;
use rdl_failures::Failures;
use rdl_layers::PropSetting;
use rdl_props::Prop;
use rdl_tree::{Inst, Kind};
use rdl_values::Chain;
use std::alloc::Global;

// The first width of these, or 1.
fn first_width(widths: &[u128], assigned: Option<u64>) -> u128
    ensures { result ≡ phase.first_or (widths.now ++ option_to_list assigned) 1 }
{
    match (widths, assigned) {
        ([first, ..], _) => *first,
        ([], Some(assigned)) => u128::from(assigned),
        ([], None) => 1,
    }
}

// Whether one of the widths is another than the assigned one.
fn disagree(widths: &[u128], assigned: Option<u64>) -> bool
    ensures { result ≡ list_any (λ f. list_any (λ a. not (f == a)) (option_to_list assigned)) widths.now }
{
    match assigned {
        Some(assigned) => widths.iter().any(|width| *width != u128::from(assigned)),
        None => false,
    }
}

// Whether the high bit of the range stands below the low one.
fn is_turned(range: Option<(u64, u64)>) -> bool
    ensures { result ≡ list_any (λ r. nat_lt r.0 r.1) (option_to_list range) }
{
    match range {
        Some((high, low)) => high < low,
        None => false,
    }
}

// P11: the width is 0 or above 64, the range is turned, or the text and the assigned width disagree.
fn is_bad_width(widths: &[u128], range: Option<(u64, u64)>, assigned: Option<u64>) -> bool
    ensures { result ≡ is_bad widths.now (option_to_list range) (option_to_list assigned) }
{
    let width = first_width(widths, assigned);
    (width == 0) | (width > 64) | is_turned(range) | disagree(widths, assigned)
}

// The property that gives the width of a kind.
fn width_prop(kind: Kind) -> Prop
    ensures { result ≡ phase.width_prop kind }
{
    match kind {
        Kind::Signal => Prop::Signalwidth,
        _ => Prop::Fieldwidth,
    }
}

/// Puts in P11 of a field or a signal, whose name stands at the place, from what decides its properties and from its text, which
/// sees the names that are visible.
pub fn judge_unit<'a>(
    alloc: Global,
    inst: &Inst<'a>,
    kind: Kind,
    place: Place,
    entries: &[PropSetting],
    visible: &Chain<'_, '_, '_, 'a>,
    failures: &mut Failures,
) -> Result<(), NoMemory>
    ensures { OnOk result ((all : List Instance) (n : Instance) → AreEntries all entries.now (applied_to n) → kind_of n ≡ kind → (kind ≡ kinds.Field) ⊎ (kind ≡ kinds.Signal) → n.use_.name.place ≡ place → IsOfText inst.now n → IsShown visible.now (around n.use_.scope)
        → failures.new ≡ with_all (phase.of_node n) failures.old) }
{
    let range = range_seen(inst.range, visible);
    let widths = form_widths(alloc, inst.dims, range, visible)?;
    let assigned = assigned_number(entries, width_prop(kind));
    failures.note(is_bad_width(&widths, range, assigned), Rule::P11, place)?;
    Ok(())
}

// The width, if a field or a signal may have it, else 0.
fn narrow(width: u128) -> u64
    ensures narrow { result ≤ 64 }
    ensures same { width ≤ 64 → result ≡ width }
{
    if width <= 64 { width as u64 } else { 0 }
}

/// The width of a field or a signal, from what decides its properties and from its text, which sees the names that are visible. Where it
/// is above 64, which P11 forbids, the answer is 0.
pub fn unit_width<'a>(
    alloc: Global,
    inst: &Inst<'a>,
    kind: Kind,
    entries: &[PropSetting],
    visible: &Chain<'_, '_, '_, 'a>,
) -> Result<u64, NoMemory>
    ensures narrow { IfOk result (λ width. width ≤ 64) }
    ensures width { IfOk result (λ width. (all : List Instance) (n : Instance) → AreEntries all entries.now (applied_to n) → kind_of n ≡ kind → IsOfText inst.now n → IsShown visible.now (around n.use_.scope) → phase.width_of n ≤ 64 → width ≡ phase.width_of n) }
{
    let range = range_seen(inst.range, visible);
    let widths = form_widths(alloc, inst.dims, range, visible)?;
    let assigned = assigned_number(entries, width_prop(kind));
    Ok(narrow(first_width(&widths, assigned)))
}
