//! The enumeration by which a field is encoded, as its settings and the open bodies tell of it.

ghost use Rattle.std.specs.Prelude.{◌≡◌, ℕ, Contains, IfOk, option_map, true};
ghost use Rattle.rdl_props.specs.declared.prop.Prop.TheVariants as props;
ghost use Rattle.rdl_tree.specs.declared.node.Elab.{Elab};
ghost use Rattle.rdl_values.specs.Bodies.{Scope, around};
ghost use Rattle.rdl_values.specs.Elaborated.{nodes_of};
ghost use Rattle.rdl_values.specs.Elaboration.{IsClean};
ghost use Rattle.rdl_values.specs.Instances.{Instance};
ghost use Rattle.rdl_values.specs.Values.{visible_enum};
ghost use Rattle.rdl_layers.specs.Settings.{applied_to};
ghost use Rattle.rdl_layers.specs.Tables.{entries_at, setting_in};
ghost use Rattle.rdl_merge.specs.Merged.{AreEntries};
ghost use Rattle.rdl_open_bodies.specs.Spots.{IsOpenTree};
ghost use Rattle.rdl_facts.specs.Encoded.{NamesEnum};
ghost use Rattle.rdl_encodings.specs.Encoded.{encoded_by};
ghost use Rattle.rdl_encodings.specs.Enums.{AreEnumsOfBodies};
ghost use Rattle.rdl_encodings.specs.Meant.{Serves, enum_meant, names_enum};

use crate::enums::Enums;
use rb_base::NoMemory;
use rdl_facts::body_round;
use rdl_layers::{PropSetting, Setting, setting_of};
use rdl_merge::entries_say;
use rdl_open_bodies::OpenTree;
use rdl_props::Prop;
use rdl_tree::Name;
use std::alloc::Global;

/// An enumeration under the name by which it is meant: the number of the body that has it, and its number there.
#[derive(Clone, Copy)]
pub(crate) struct Meant<'a> {
    pub name: &'a [u8],
    pub body: usize,
    pub number: usize,
}

// Whether entries set `encode` to the name of an enumeration.
fn names_one(entries: &[PropSetting<'_>]) -> bool
    ensures { result ≡ names_enum (setting_in props.Encode entries.now) }
{
    match setting_of(entries, Prop::Encode) {
        Setting::EnumOf { .. } => true,
        _ => false,
    }
}

// Whether the entries of some node do.
fn some_name(entries: &[Vec<PropSetting<'_>>]) -> bool
    ensures { (k : ℕ) → names_enum (setting_in props.Encode (entries_at entries.now k)) ≡ true → result ≡ true }
{
    for list in entries {
        if names_one(list) {
            return true;
        }
    }
    false
}

/// The enumerations of the open bodies, where the entries of some node need them.
pub(crate) fn enums_for<'a>(
    alloc: Global,
    tree: &OpenTree<'_, 'a>,
    entries: &[Vec<PropSetting<'a>>],
) -> Result<Enums<'a>, NoMemory>
    ensures { IfOk result (λ t. Serves t tree.now entries.now) }
{
    if !some_name(entries) {
        return Ok(Enums::none(alloc));
    }
    let enums = Enums::of(alloc, &tree.bodies)?;
    Ok(enums)
}

// The enumeration that a name means in the bodies round the text of a setting.
fn meant_from<'a>(
    tree: &OpenTree<'_, 'a>,
    enums: &Enums<'a>,
    name: &Name<'a>,
    scope: u32,
) -> Option<Meant<'a>>
    ensures { (e : Elab) (round : Scope) → NamesEnum e tree.now name.now scope round → AreEnumsOfBodies enums.now tree.now.bodies → visible_enum (around round) name.now ≡ option_map (enum_meant enums.now) result }
{
    let Some(body) = body_round(tree, scope) else {
        return None;
    };
    let Some(at) = enums.find(body.numbers, name) else {
        return None;
    };
    Some(Meant {
        name: name.text,
        body: at.0,
        number: at.1,
    })
}

/// The enumeration by which a field is encoded, from what decides the field's properties.
pub(crate) fn enum_of<'a>(
    tree: &OpenTree<'_, 'a>,
    enums: &Enums<'a>,
    entries: &[PropSetting<'a>],
) -> Option<Meant<'a>>
    ensures { (e : Elab) (n : Instance) → IsClean e → IsOpenTree e tree.now → Contains (nodes_of e) n → AreEntries (nodes_of e) entries.now (applied_to n) → (names_enum (setting_in props.Encode entries.now) ≡ true → AreEnumsOfBodies enums.now tree.now.bodies)
        → encoded_by n ≡ option_map (enum_meant enums.now) result }
{
    entries_say();
    match setting_of(entries, Prop::Encode) {
        Setting::EnumOf { name, scope } => meant_from(tree, enums, name, scope),
        _ => None,
    }
}
