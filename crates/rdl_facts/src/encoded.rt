//! Whether the entries of the enumeration that a field is encoded by fit into it (SystemRDL 2.0, 9.10).

ghost use Rattle.std.specs.Prelude.{◌≡◌, ◌≤◌, ◌^◌, Contains, nat_le, slice_get};
ghost use Rattle.rdl_tree.specs.declared.expr.Name.{Name as AnyName};
ghost use Rattle.rdl_tree.specs.declared.node.Elab.{Elab};
ghost use Rattle.rdl_values.specs.Bodies.{Scope, around};
ghost use Rattle.rdl_values.specs.Elaborated.{nodes_of};
ghost use Rattle.rdl_values.specs.Elaboration.{IsClean};
ghost use Rattle.rdl_values.specs.Instances.{Instance};
ghost use Rattle.rdl_layers.specs.Phase4.{width_of};
ghost use Rattle.rdl_layers.specs.Settings.{applied_to};
ghost use Rattle.rdl_merge.specs.Merged.{AreEntries};
ghost use Rattle.rdl_open_bodies.specs.Spots.{IsOpenTree};
ghost use Rattle.rdl_rules.specs.FieldRules.{encode_too_wide};
ghost use Rattle.rdl_facts.specs.Greatest.{reaches};
ghost use Rattle.rdl_facts.specs.Table.{AreNumbersOf};
ghost use Rattle.rdl_facts.specs.Encoded.{NamesEnum, Shows, body_or};

use crate::table::EnumNumbers;
use rdl_bodies::Body;
use rdl_layers::{PropSetting, Setting, setting_of, settings_in_bodies};
use rdl_merge::entries_say;
use rdl_open_bodies::{OpenTree, Spot};
use rdl_props::Prop;

/// The node of a number among the open bodies.
pub(crate) fn spot_at(spots: &[Spot], at: usize) -> Option<Spot>
    ensures { result ≡ slice_get spots.now at }
{
    spots.get(at).copied()
}

// The open body of the node of a number, or the root's, whose number is the count of nodes.
fn open_body(spots: &[Spot], scope: u32) -> usize
    ensures { result ≡ body_or (slice_get spots.now scope) }
{
    match spot_at(spots, scope as usize) {
        Some(spot) => spot.body,
        None => 0,
    }
}

/// The open body in which the text of a setting stands, from the number that the setting has of it.
pub fn body_round<'s, 'a>(tree: &OpenTree<'s, 'a>, scope: u32) -> Option<Body<'s, 'a>>
    ensures { (e : Elab) (name : AnyName) (round : Scope) → NamesEnum e tree.now name scope round → Shows tree.now result (around round) }
{
    settings_in_bodies();
    tree.bodies.body(open_body(&tree.spots, scope))
}

// Whether a number needs more bits than these.
fn is_over(width: u64, number: u64) -> bool
    requires { width ≤ 64 }
    ensures { result ≡ nat_le (2 ^ width) number }
{
    if width == 64 {
        return false;
    }
    (1 << width) <= number
}

// The same of a greatest number, if there is one.
fn is_wide(greatest: Option<u64>, width: u64) -> bool
    requires { width ≤ 64 }
    ensures { result ≡ reaches greatest (2 ^ width) }
{
    match greatest {
        Some(number) => is_over(width, number),
        None => false,
    }
}

/// Whether an entry of the enumeration that a field of this width is encoded by has a number that it can't hold, from what decides the
/// field's properties.
pub(crate) fn has_wide_entry<'a>(
    tree: &OpenTree<'_, 'a>,
    enums: &EnumNumbers<'a>,
    entries: &[PropSetting<'a>],
    width: u64,
) -> bool
    requires { width ≤ 64 }
    ensures { (e : Elab) (n : Instance) → IsClean e → IsOpenTree e tree.now → AreNumbersOf enums.now tree.now.bodies → Contains (nodes_of e) n → AreEntries (nodes_of e) entries.now (applied_to n) → width_of n ≡ width → result ≡ encode_too_wide n }
{
    entries_say();
    match setting_of(entries, Prop::Encode) {
        Setting::EnumOf { name, scope } => match body_round(tree, scope) {
            Some(body) => is_wide(enums.greatest(body.numbers, name), width),
            None => false,
        },
        _ => false,
    }
}
