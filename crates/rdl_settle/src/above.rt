//! What the bodies of all nodes assign to nodes below them.

ghost use Rattle.std.specs.Prelude.{◌≡◌, [], ℕ, IfOk, List, OnOk, length, slice_get};
ghost use Rattle.std.specs.List.{list_any};
ghost use Rattle.rdl_base.specs.declared.fault.Fault.{Fault};
ghost use Rattle.rdl_tree.specs.declared.node.Elab.{Elab};
ghost use Rattle.rdl_tree.specs.declared.node.Node.{out-Node};
ghost use Rattle.rdl_values.specs.Elaborated.{nodes_of};
ghost use Rattle.rdl_values.specs.Elaboration.{IsClean};
ghost use Rattle.rdl_values.specs.Instances.{Instance};
ghost use Rattle.rdl_values.specs.Lineages.{lineages_of};
ghost use Rattle.rdl_nodes.specs.Rows.{AreRows};
ghost use Rattle.rdl_layers.specs.Tables.{entries_at};
ghost use Rattle.rdl_open_bodies.specs.Spots.{IsOpenTree, IsSpot};
ghost use Rattle.rdl_open_settings.specs.Layered.{AreLayers, AreLayersOf, HasLayers, layers_at};
ghost use Rattle.rdl_targets.specs.At.{IsAt};
ghost use Rattle.rdl_targets.specs.Contents.{AreContents};
ghost use Rattle.rdl_settle.specs.Gathered.{AreAssigned, IsAssigned, has_dynamics};

use rb_base::NoMemory;
use rdl_dynamic::judge_dynamics;
use rdl_failures::Failures;
use rdl_layers::PropSetting;
use rdl_nodes::Row;
use rdl_open_bodies::{OpenTree, Spot};
use rdl_open_settings::LayerTable;
use rdl_targets::{Contents, contents_of};
use rdl_values::Chain;
use std::alloc::Global;

// No entries, for so many nodes.
#[tactic(auto, using(crate::proofs::Assigning::none_push))]
fn no_entries<'a>(alloc: Global, count: usize) -> Result<Vec<Vec<PropSetting<'a>>>, NoMemory>
    ensures size { IfOk result (λ r. length r.items ≡ count) }
    ensures none { IfOk result (λ r. (j : ℕ) → entries_at r.items j ≡ []) }
{
    let mut list = Vec::with_capacity(alloc, count)?;
    for _ in 0..count {
        list.push(Vec::new(alloc))?;
    }
    Ok(list)
}

// Judges the dynamic assignments in the body of a node.
fn assign<'a>(
    alloc: Global,
    rows: &[Row<'a>],
    contents: &Contents<'a>,
    row: &Row<'a>,
    tree: &OpenTree<'_, 'a>,
    layers: &LayerTable<'a>,
    spot: &Spot,
    entries: &mut Vec<Vec<PropSetting<'a>>>,
    failures: &mut Failures,
) -> Result<(), NoMemory>
    ensures { OnOk result ((e : Elab) (n : Instance) (held : List Fault) → AreRows e rows.now → AreContents e contents.now → AreLayers tree.now.bodies held layers.now → HasLayers layers.now spot.now.body → IsAt (lineages_of e) (out-Node row.now.node.now).id n → IsSpot e tree.now.bodies spot.now n
        → IsAssigned e n entries.old.items entries.new.items failures.old failures.new) }
{
    let bodies = &tree.bodies;
    let Some(body) = bodies.body(spot.body) else {
        return Ok(());
    };
    let Some(found) = layers.find(spot.body) else {
        return Ok(());
    };
    let visible = Chain {
        nearest: None,
        tables: bodies.tables(),
        numbers: body.numbers,
    };
    judge_dynamics(
        alloc,
        rows,
        contents,
        row.node.id,
        found.dynamics(),
        &visible,
        entries,
        failures,
    )?;
    Ok(())
}

// Whether a body assigns something to nodes below it.
fn assigns_below(layers: &LayerTable, body: usize) -> bool
    ensures { result ≡ has_dynamics (layers_at layers.now body) }
{
    match layers.find(body) {
        Some(found) => !found.dynamics().is_empty(),
        None => false,
    }
}

// Whether the body of any of these nodes does.
fn any_assigns_below(layers: &LayerTable, spots: &[Spot]) -> bool
    ensures { result ≡ list_any (λ o. has_dynamics (layers_at layers.now o.body)) spots.now }
{
    spots.iter().any(|spot| assigns_below(layers, spot.body))
}

/// The node of a number among the open bodies.
pub(crate) fn spot_at(spots: &[Spot], at: usize) -> Option<Spot>
    ensures { result ≡ slice_get spots.now at }
{
    spots.get(at).copied()
}

/// Puts in all failures of the dynamic assignments in the bodies of the nodes of a tree, and gives what those that fail none assign to
/// each node, in the order of the bodies. The nodes in bodies are listed only where some body has dynamic assignments.
pub(crate) fn assign_all<'a>(
    alloc: Global,
    rows: &[Row<'a>],
    tree: &OpenTree<'_, 'a>,
    layers: &LayerTable<'a>,
    failures: &mut Failures,
) -> Result<Vec<Vec<PropSetting<'a>>>, NoMemory>
    ensures { IfOk result (λ r. (e : Elab) (before : List Fault) (held : List Fault) → IsClean e → AreRows e rows.now → IsOpenTree e tree.now → AreLayersOf e tree.now layers.now before held → AreAssigned e (nodes_of e) r.items failures.old failures.new) }
{
    let mut entries = no_entries(alloc, rows.len())?;
    if !any_assigns_below(layers, &tree.spots) {
        return Ok(entries);
    }
    let contents = contents_of(alloc, rows)?;
    for (at, row) in rows.iter().enumerate() {
        let Some(spot) = spot_at(&tree.spots, at) else {
            return Ok(entries);
        };
        assign(
            alloc,
            rows,
            &contents,
            row,
            tree,
            layers,
            &spot,
            &mut entries,
            failures,
        )?;
    }
    Ok(entries)
}
