//! Enumerations in turn: the entries of each see the parameters and the enumerations before it.

ghost use Rattle.std.specs.Prelude.{◌≡◌, ◌∷◌, [], OnOk, false, flat_map};
ghost use Rattle.rdl_tree.specs.InOrder.{IsInOrder};
ghost use Rattle.rdl_values.specs.Bodies.{Body, Scope, around};
ghost use Rattle.rdl_values.specs.Views.{item_is};
ghost use Rattle.rdl_failures.specs.Noted.{with_all};
ghost use Rattle.rdl_failures.specs.Shown.{IsAlike, IsShown};
ghost use Rattle.rdl_layers.specs.Phase4.{of_entry, of_enums};
ghost use Rattle.rdl_scopes.specs.Opened.{bodies};
ghost use Rattle.rdl_assignments.specs.Enums.{fails_in};

use crate::entries::judge_entry;
use bumpalo::Bump;
use rb_base::NoMemory;
use rdl_failures::Failures;
use rdl_scopes::{Opening, Outer};
use rdl_tree::{Entry, Item};
use rdl_values::{Chain, Table};
use std::alloc::Global;

// Puts in the failures of the assignments to an entry.
fn judge_one<'a>(
    alloc: Global,
    entry: &Entry<'a>,
    visible: &Chain<'_, '_, '_, 'a>,
    failures: &mut Failures,
) -> Result<(), NoMemory>
    ensures { OnOk result ((scope : Scope) → IsShown visible.now (around scope) → failures.new ≡ with_all (of_entry scope entry.now) failures.old) }
{
    judge_entry(alloc, entry.sets, visible, failures)
}

// Puts in the failures of the assignments to some entries.
fn judge_all<'a>(
    alloc: Global,
    entries: &[Entry<'a>],
    visible: &Chain<'_, '_, '_, 'a>,
    failures: &mut Failures,
) -> Result<(), NoMemory>
    ensures { OnOk result ((scope : Scope) → IsShown visible.now (around scope) → failures.new ≡ with_all (flat_map (of_entry scope) entries.now) failures.old) }
{
    for entry in entries {
        judge_one(alloc, entry, visible, failures)?;
    }
    Ok(())
}

// The same of the enumeration that an item defines, if it defines one, where these names are visible.
fn judge_item<'a>(
    alloc: Global,
    item: &Item<'a>,
    names: &Table<'a>,
    outer: &Outer<'_, '_, 'a>,
    failures: &mut Failures,
) -> Result<(), NoMemory>
    ensures { OnOk result ((scope : Scope) → IsAlike (names.now ∷ bodies outer.now) (around scope) → failures.new ≡ with_all (fails_in scope (item_is item.now)) failures.old) }
{
    let Item::EnumDef { entries, .. } = item else {
        return Ok(());
    };
    let visible = Chain {
        nearest: Some(names),
        tables: outer.tables,
        numbers: outer.numbers,
    };
    judge_all(alloc, entries, &visible, failures)
}

// Whether an entry has assignments.
fn is_assigned_to(entry: &Entry<'_>) -> bool
    ensures { result ≡ false → (scope : Scope) → of_entry scope entry.now ≡ [] }
{
    !entry.sets.is_empty()
}

// Whether any of some entries has.
fn some_are(entries: &[Entry<'_>]) -> bool
    ensures { result ≡ false → (scope : Scope) → flat_map (of_entry scope) entries.now ≡ [] }
{
    for entry in entries {
        if is_assigned_to(entry) {
            return true;
        }
    }
    false
}

// Whether an item is an enumeration of which any entry has.
fn has_some(item: &Item<'_>) -> bool
    ensures { result ≡ false → (scope : Scope) → fails_in scope (item_is item.now) ≡ [] }
{
    match item {
        Item::EnumDef { entries, .. } => some_are(entries),
        _ => false,
    }
}

// Whether any item is.
fn some_have(items: &[Item<'_>]) -> bool
    ensures { result ≡ false → (b : Body) → b.items ≡ items.now → of_enums b ≡ [] }
{
    for item in items {
        if has_some(item) {
            return true;
        }
    }
    false
}

/// Puts in all failures of the assignments to the entries of a body's enumerations, from a table of the body's parameters: V rules in
/// values, P1 to P6 and P8. What an enumeration is opened with stays in the arena. Where no entry has assignments nothing is opened.
pub fn judge_enums<'a>(
    alloc: Global,
    arena: &'a Bump,
    table: Table<'a>,
    items: &[Item<'a>],
    outer: &Outer<'_, '_, 'a>,
    failures: &mut Failures,
) -> Result<(), NoMemory>
    requires no_enums { table.enums ≡ [] }
    requires in_order { IsInOrder items.now }
    ensures { OnOk result ((b : Body) → b.items ≡ items.now → b.names.bound ≡ table.entry.bound → IsAlike (bodies outer.now) (around b.outer) → failures.new ≡ with_all (of_enums b) failures.old) }
{
    if !some_have(items) {
        return Ok(());
    }
    let mut opening = Opening::new(arena, table);
    let mut known = Failures::new(alloc);
    for item in items {
        judge_item(alloc, item, opening.table(), outer, failures)?;
        opening.read(alloc, item, outer, &mut known)?;
    }
    Ok(())
}
