//! One dynamic assignment, behind those of its body.

ghost use Rattle.std.specs.Prelude.{◌≡◌, ◌++◌, ◌&&◌, List, Some, IfOk, IfSome, true, filter, flat_map, is_some, map};
ghost use Rattle.std.specs.List.{list_all, list_any};
ghost use Rattle.rdl_tree.specs.declared.node.Elab.{Elab};
ghost use Rattle.rdl_values.specs.Bodies.{around};
ghost use Rattle.rdl_values.specs.Lineages.{lineages_of};
ghost use Rattle.rdl_values.specs.Views.{steps_of};
ghost use Rattle.rdl_props.specs.Same.{same_prop};
ghost use Rattle.rdl_nodes.specs.Rows.{AreRows};
ghost use Rattle.rdl_nodes.specs.declared.table.Row.{Row as AnyRow};
ghost use Rattle.rdl_failures.specs.Noted.{IsNoted};
ghost use Rattle.rdl_failures.specs.Shown.{IsShown};
ghost use Rattle.rdl_layers.specs.Assignments.{Dynamic, Nested, meet, targets as targets_of};
ghost use Rattle.rdl_layers.specs.Judged.{bad_indices, no_target, taken, unknown};
ghost use Rattle.rdl_layers.specs.Meanings.{Assignment, prop_of};
ghost use Rattle.rdl_assignments.specs.Layers.{IsGiven};
ghost use Rattle.rdl_targets.specs.At.{AreAt};
ghost use Rattle.rdl_dynamic.specs.Judged.{CanLead, IsLed, known_fails};
ghost use Rattle.rdl_dynamic.specs.Known.{has_rival, legal_at};
ghost use Rattle.rdl_dynamic.specs.Marks.{AreMarks, is_marked};

use crate::indices::judge_indices;
use crate::known::Known;
use crate::laws::met_at_targets;
use crate::marks::Marks;
use crate::targets::{judge_kinds, judge_target};
use rb_base::{NoMemory, Place};
use rdl_assignments::{ValidAssignment, meaning_of};
use rdl_base::Rule;
use rdl_failures::Failures;
use rdl_layers::Setting;
use rdl_nodes::Row;
use rdl_props::{Prop, find, left_out};
use rdl_targets::Contents;
use rdl_tree::{Path, Set};
use rdl_values::Chain;
use std::alloc::Global;

/// The path of a dynamic assignment, if it leads anywhere, and what it gives where it fails no rule.
#[derive(Drop)]
pub(crate) struct Led<'a> {
    pub given: Option<ValidAssignment<'a>>,
    pub path: Option<u32>,
}

// Puts in P1 where no property has the name, or P2 where it is one that this project leaves out.
fn note_name(set: &Set, known: bool, failures: &mut Failures) -> Result<bool, NoMemory>
    ensures { IfOk result (λ clean. (a : Assignment) → a.set_ ≡ set.now → known ≡ is_some (prop_of a) → IsNoted (unknown a) clean failures.old failures.new) }
{
    if known {
        return Ok(true);
    }
    if left_out(set.prop.text) {
        failures.note(true, Rule::P2, set.place)
    } else {
        failures.note(true, Rule::P1, set.place)
    }
}

// Whether the property is assigned at one of the nodes already, as it is where it was assigned to all of them.
fn is_taken(marks: &Marks, nodes: &[u32], again: bool, prop: Prop) -> bool
    ensures { (again ≡ true → list_any (λ k. is_marked marks.now k (same_prop prop)) nodes.now ≡ true) → result ≡ list_any (λ k. is_marked marks.now k (same_prop prop)) nodes.now }
{
    if again {
        return true;
    }
    marks.is_taken(nodes, prop)
}

// Puts in P4 where the property is assigned at one of the nodes already, and P5 where one that excludes it is.
fn note_taken(
    marks: &Marks,
    nodes: &[u32],
    again: bool,
    excluded: bool,
    prop: Prop,
    place: Place,
    failures: &mut Failures,
) -> Result<bool, NoMemory>
    ensures { IfOk result (λ clean. (e : Elab) (b : Nested) (d : Dynamic) (earlier : List Dynamic) → AreMarks (lineages_of e) b marks.now earlier → AreAt (lineages_of e) nodes.now (targets_of b d) → d.assigns.set_.place ≡ place → prop_of d.assigns ≡ Some prop → (again ≡ true → list_any (λ k. is_marked marks.now k (same_prop prop)) nodes.now ≡ true) → excluded ≡ list_any (has_rival marks.now prop) nodes.now
        → IsNoted (taken (map (λ x. x.assigns) (filter (meet b d) earlier)) d.assigns) clean failures.old failures.new) }
{
    met_at_targets();
    let fresh = failures.note(is_taken(marks, nodes, again, prop), Rule::P4, place)?;
    let alone = failures.note(excluded, Rule::P5, place)?;
    Ok(fresh & alone)
}

// Puts in what fails of the name and the target.
fn judge_path<'a>(
    path: &Path<'a>,
    set: &Set<'a>,
    known: bool,
    nodes: &[u32],
    visible: &Chain<'_, '_, '_, 'a>,
    failures: &mut Failures,
) -> Result<bool, NoMemory>
    ensures { IfOk result (λ clean. (e : Elab) (b : Nested) (d : Dynamic) → d.steps ≡ steps_of path.now → d.assigns.set_ ≡ set.now → known ≡ is_some (prop_of d.assigns) → IsShown visible.now (around d.assigns.scope) → AreAt (lineages_of e) nodes.now (targets_of b d)
        → IsNoted (unknown d.assigns ++ bad_indices d ++ no_target b d) clean failures.old failures.new) }
{
    let named = note_name(set, known, failures)?;
    let indices = judge_indices(path, visible, failures)?;
    let target = judge_target(indices, nodes, set.place, failures)?;
    Ok(named & indices & target)
}

// What is given where the rest is clean.
fn kept<'a>(clean: bool, setting: Option<Setting<'a>>) -> Option<Setting<'a>>
    ensures some { is_some result ≡ (clean && is_some setting.entry) }
    ensures same { IfSome result (λ s. setting.entry ≡ Some s) }
{
    if clean { setting } else { None }
}

// Puts in what fails of an assignment of a property, at the nodes and of its value, and answers what it gives where nothing does.
fn judge_known<'a>(
    legal: bool,
    nodes: &[u32],
    again: bool,
    excluded: bool,
    prop: Prop,
    set: &'a Set<'a>,
    body: u32,
    visible: &Chain<'_, '_, '_, 'a>,
    marks: &Marks,
    failures: &mut Failures,
) -> Result<Option<Setting<'a>>, NoMemory>
    ensures noted { IfOk result (λ r. (e : Elab) (rows : List AnyRow) (b : Nested) (d : Dynamic) (earlier : List Dynamic) → AreRows e rows → AreMarks (lineages_of e) b marks.now earlier → AreAt (lineages_of e) nodes.now (targets_of b d) → d.assigns.set_ ≡ set.now → prop_of d.assigns ≡ Some prop
        → IsShown visible.now (around d.assigns.scope) → legal ≡ list_all (legal_at rows prop) nodes.now → (again ≡ true → list_any (λ k. is_marked marks.now k (same_prop prop)) nodes.now ≡ true) → excluded ≡ list_any (has_rival marks.now prop) nodes.now → IsNoted (known_fails b earlier d) (is_some r) failures.old failures.new) }
    ensures given { IfOk result (λ r. IfSome r (λ s. (a : Assignment) → a.set_ ≡ set.now → prop_of a ≡ Some prop → IsShown visible.now (around a.scope) → IsGiven body (record { prop = prop; setting = s }) a)) }
{
    let fits = judge_kinds(legal, set.place, failures)?;
    let setting = failures.value_of(meaning_of(prop, set, body, visible))?;
    let free = note_taken(marks, nodes, again, excluded, prop, set.place, failures)?;
    Ok(kept(fits & free, setting))
}

// What an assignment of the property gives, where the rest is clean.
fn given_by<'a>(
    clean: bool,
    prop: Prop,
    setting: Option<Setting<'a>>,
) -> Option<ValidAssignment<'a>>
    ensures some { is_some result ≡ (clean && is_some setting.entry) }
    ensures same { IfSome result (λ g. (g.prop ≡ prop) × (setting.entry ≡ Some g.setting)) }
{
    match kept(clean, setting) {
        Some(setting) => Some(ValidAssignment { prop, setting }),
        None => None,
    }
}

/// Judges a dynamic assignment behind those of its body that are known, and makes it known.
pub(crate) fn judge_dynamic<'a>(
    alloc: Global,
    rows: &[Row<'a>],
    contents: &Contents<'a>,
    target: &Path<'a>,
    set: &'a Set<'a>,
    body: u32,
    visible: &Chain<'_, '_, '_, 'a>,
    known: &mut Known<'a>,
    failures: &mut Failures,
) -> Result<Led<'a>, NoMemory>
    ensures { IfOk result (λ r. (e : Elab) (b : Nested) (earlier : List Dynamic) (d : Dynamic) → CanLead e rows.now contents.now body target.now set.now visible.now known.old b earlier d → IsLed e body rows.now b earlier d r known.new failures.old failures.new) }
{
    let path = known.trails.find(alloc, rows, contents, target, visible)?;
    let found = find(set.prop.text);
    let clean = judge_path(
        target,
        set,
        found.is_some(),
        known.trails.nodes(path),
        visible,
        failures,
    )?;
    let Some(prop) = found else {
        return Ok(Led { given: None, path });
    };
    let legal = known.is_legal(rows, path, prop);
    let again = known.seen.find(path, prop).is_some();
    let excluded = known.is_excluded(path, prop);
    let setting = judge_known(
        legal,
        known.trails.nodes(path),
        again,
        excluded,
        prop,
        set,
        body,
        visible,
        &known.marks,
        failures,
    )?;
    known.mark(alloc, path, prop, legal, excluded)?;
    Ok(Led {
        given: given_by(clean, prop, setting),
        path,
    })
}
