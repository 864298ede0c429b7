//! Assignments to the entries of enumerations that may fail differently in the bodies of one text.

ghost use Rattle.std.specs.Prelude.{◌≡◌, false, flat_map};
ghost use Rattle.rdl_values.specs.Bodies.{Body, Scope, around};
ghost use Rattle.rdl_values.specs.Values.{Around};
ghost use Rattle.rdl_values.specs.Views.{item_is};
ghost use Rattle.rdl_layers.specs.Phase4.{of_entry, of_enums};
ghost use Rattle.std.specs.List.{AllByRecursion};
ghost use Rattle.rdl_assignments.specs.Enums.{fails_in};
ghost use Rattle.rdl_assignments.specs.Live.{visible_in};
ghost use Rattle.rdl_assignments.specs.Steady.{AreNamedAs, IsSteadyNamed};
ghost use Rattle.rdl_failures.specs.Shown.{IsShown};

use crate::steady::{TextView, is_steady_named};
use rdl_tree::{Entry, Item, Set};

// Whether any of some settings names something.
fn some_name<'a>(sets: &[Set<'a>], text: &TextView<'_, '_, '_, '_, 'a>) -> bool
    requires { text.now.same_enums ≡ false }
    ensures { result ≡ false → (v : Around) → IsShown text.now.visible.now v → AllByRecursion (IsSteadyNamed false v) sets.now }
{
    for set in sets {
        if !is_steady_named(set, text) {
            return true;
        }
    }
    false
}

// The same of the settings of an entry.
fn entry_varies<'a>(entry: &Entry<'a>, text: &TextView<'_, '_, '_, '_, 'a>) -> bool
    requires { text.now.same_enums ≡ false }
    ensures { result ≡ false → (v : Around) → IsShown text.now.visible.now v → (u w : Scope) → AreNamedAs false v (around u) → AreNamedAs false v (around w) → of_entry u entry.now ≡ of_entry w entry.now }
{
    some_name(entry.sets, text)
}

// The same of some entries.
fn some_vary<'a>(entries: &[Entry<'a>], text: &TextView<'_, '_, '_, '_, 'a>) -> bool
    requires { text.now.same_enums ≡ false }
    ensures { result ≡ false → (v : Around) → IsShown text.now.visible.now v → (u w : Scope) → AreNamedAs false v (around u) → AreNamedAs false v (around w) → flat_map (of_entry u) entries.now ≡ flat_map (of_entry w) entries.now }
{
    for entry in entries {
        if entry_varies(entry, text) {
            return true;
        }
    }
    false
}

// The same of an item, which may be no enumeration.
fn item_varies<'a>(item: &Item<'a>, text: &TextView<'_, '_, '_, '_, 'a>) -> bool
    requires { text.now.same_enums ≡ false }
    ensures { result ≡ false → (v : Around) → IsShown text.now.visible.now v → (u w : Scope) → AreNamedAs false v (around u) → AreNamedAs false v (around w) → fails_in u (item_is item.now) ≡ fails_in w (item_is item.now) }
{
    match item {
        Item::EnumDef { entries, .. } => some_vary(entries, text),
        _ => false,
    }
}

/// Whether any assignment to an entry of the enumerations among these items has a value that names a parameter or an entry. Where none
/// has, all such assignments fail alike in all bodies of the text.
pub fn entries_vary<'a>(items: &[Item<'a>], text: &TextView<'_, '_, '_, '_, 'a>) -> bool
    ensures { result ≡ false → (v : Around) → IsShown text.now.visible.now v → (b c : Body) → b.items ≡ items.now → c.items ≡ items.now → AreNamedAs text.now.same_enums v (visible_in b) → AreNamedAs text.now.same_enums v (visible_in c)
        → of_enums b ≡ of_enums c }
{
    // An enumeration sees those before it alone.
    let own = TextView {
        visible: text.visible,
        same_enums: false,
    };
    for item in items {
        if item_varies(item, &own) {
            return true;
        }
    }
    false
}
