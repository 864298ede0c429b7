//! The assignments of one layer behind others.

ghost use Rattle.std.specs.Prelude.{◌≡◌, ◌++◌, ℕ, List, OnOk, filter, flat_map};
ghost use Rattle.rdl_values.specs.Instances.{Instance};
ghost use Rattle.rdl_props.specs.Table.{is_legal};
ghost use Rattle.rdl_layers.specs.Meanings.{Assignment};
ghost use Rattle.rdl_layers.specs.Says.{IsScopeNumber};
ghost use Rattle.rdl_layers.specs.Settings.{Applied, gives};
ghost use Rattle.rdl_layers.specs.declared.rank.Rank.{Rank};
ghost use Rattle.rdl_assignments.specs.Layers.{AreGiven, IsGiven};
ghost use Rattle.rdl_merge.specs.Merged.{AreEntries, AreIn, GivesEntry};

use crate::adding::add_entry;
use rb_base::NoMemory;
use rdl_assignments::{ValidAssignment, moved, settings_say};
use rdl_layers::PropSetting;
use rdl_props::legal;
use rdl_tree::Kind;

// What an assignment gives, in the body of this number.
fn entry_of<'a>(one: &ValidAssignment<'a>, body: u32) -> PropSetting<'a>
    ensures { (all : List Instance) (judged : ℕ) (a : Assignment) (rank : Rank) → IsGiven judged one.now a → IsScopeNumber all a.scope body → GivesEntry all result rank a }
{
    settings_say();
    PropSetting {
        prop: one.prop,
        setting: moved(one.setting, body),
    }
}

// Puts what an assignment gives behind the others.
fn add_one<'a>(
    entries: &mut Vec<PropSetting<'a>>,
    one: &ValidAssignment<'a>,
    body: u32,
) -> Result<(), NoMemory>
    ensures { OnOk result ((all : List Instance) (xs : List Applied) (judged : ℕ) (a : Assignment) (rank : Rank) → IsGiven judged one.now a → IsScopeNumber all a.scope body
        → AreEntries all entries.old.items xs → AreEntries all entries.new.items (xs ++ gives rank a)) }
{
    add_entry(entries, entry_of(one, body))
}

// The same of a default, if it is legal on the kind.
fn add_default<'a>(
    entries: &mut Vec<PropSetting<'a>>,
    one: &ValidAssignment<'a>,
    kind: Kind,
    body: u32,
) -> Result<(), NoMemory>
    ensures { OnOk result ((all : List Instance) (xs : List Applied) (judged : ℕ) (a : Assignment) (rank : Rank) → IsGiven judged one.now a → IsScopeNumber all a.scope body
        → AreEntries all entries.old.items xs → AreEntries all entries.new.items (xs ++ filter (λ x. is_legal x.candidate.prop kind) (gives rank a))) }
{
    if legal(one.prop, kind) {
        add_one(entries, one, body)
    } else {
        Ok(())
    }
}

/// Puts what the assignments of a layer give behind the others. They stand in the body of this number, whichever they were judged in.
pub fn add_given<'a>(
    entries: &mut Vec<PropSetting<'a>>,
    given: &[ValidAssignment<'a>],
    body: u32,
) -> Result<(), NoMemory>
    ensures { OnOk result ((all : List Instance) (xs : List Applied) (judged : ℕ) (assigned : List Assignment) (rank : Rank) → AreGiven judged given.now assigned → AreIn all body assigned
        → AreEntries all entries.old.items xs → AreEntries all entries.new.items (xs ++ flat_map (gives rank) assigned)) }
{
    for one in given {
        add_one(entries, one, body)?;
    }
    Ok(())
}

/// The same of defaults, of which those have an effect that are legal on the node's kind.
pub fn add_defaults<'a>(
    entries: &mut Vec<PropSetting<'a>>,
    given: &[ValidAssignment<'a>],
    kind: Kind,
    body: u32,
) -> Result<(), NoMemory>
    ensures { OnOk result ((all : List Instance) (xs : List Applied) (judged : ℕ) (assigned : List Assignment) (rank : Rank) → AreGiven judged given.now assigned → AreIn all body assigned
        → AreEntries all entries.old.items xs → AreEntries all entries.new.items (xs ++ filter (λ x. is_legal x.candidate.prop kind) (flat_map (gives rank) assigned))) }
{
    for one in given {
        add_default(entries, one, kind, body)?;
    }
    Ok(())
}
