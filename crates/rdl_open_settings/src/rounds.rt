//! Defaults of the bodies round a definition's text.

ghost use Rattle.std.specs.Prelude.{◌≡◌, ◌++◌, ℕ, List, OnOk, length, slice_get};
ghost use Rattle.rdl_tree.specs.declared.node.Elab.{Elab};
ghost use Rattle.rdl_values.specs.Bodies.{Body as BodyOf, Scope};
ghost use Rattle.rdl_values.specs.Elaborated.{nodes_of};
ghost use Rattle.rdl_values.specs.Instances.{Instance, kind_of};
ghost use Rattle.rdl_layers.specs.Settings.{Applied, from_defaults};
ghost use Rattle.rdl_merge.specs.Merged.{AreEntries};
ghost use Rattle.rdl_open_bodies.specs.Spots.{IsBodyAt, IsRound};
ghost use Rattle.rdl_open_bodies.specs.declared.spots.OpenTree.{OpenTree as TreeOf};
ghost use Rattle.rdl_open_settings.specs.Completed.{IsKnownAt, IsScene, number_or};
ghost use Rattle.rdl_open_settings.specs.declared.table.LayerTable.{LayerTable as TableOf};

use crate::table::LayerTable;
use rb_base::NoMemory;
use rdl_layers::PropSetting;
use rdl_merge::add_defaults;
use rdl_open_bodies::{OpenTree, Spot};
use rdl_tree::Kind;

// The node of a number among the open bodies.
fn spot_at(spots: &[Spot], node: u32) -> Option<Spot>
    ensures { result ≡ slice_get spots.now node }
{
    spots.get(node as usize).copied()
}

// The open body of a node, or the root's.
fn body_of(spots: &[Spot], round: Option<u32>) -> Option<usize>
    ensures { (e : Elab) (tree : TreeOf) (layers : TableOf) (count : ℕ) (b : BodyOf) → IsScene e tree layers count → tree.spots.items ≡ spots.now → IsBodyAt e round b → IsKnownAt tree layers result b }
{
    match round {
        Some(node) => match spot_at(spots, node) {
            Some(spot) => Some(spot.body),
            None => None,
        },
        None => Some(0),
    }
}

// The number of a body: its node's, and the count of nodes for the root's.
fn number_of(round: Option<u32>, count: u32) -> u32
    ensures { result ≡ number_or round count }
{
    match round {
        Some(node) => node,
        None => count,
    }
}

/// Puts the defaults of the bodies round a definition's text behind others, the nearest first, of which those have an effect that are
/// legal on the kind. There are so many bodies.
pub(crate) fn add_rounds<'a>(
    tree: &OpenTree<'_, 'a>,
    layers: &LayerTable<'a>,
    count: u32,
    kind: Kind,
    spot: &Spot,
    left: usize,
    list: &mut Vec<PropSetting<'a>>,
) -> Result<(), NoMemory>
    ensures { OnOk result ((e : Elab) (n : Instance) (distance : ℕ) (scope : Scope) (xs : List Applied) → IsScene e tree.now layers.now count → kind_of n ≡ kind → IsRound e spot.now.round spot.now.upto scope → length scope ≡ left
        → AreEntries (nodes_of e) list.old.items xs → AreEntries (nodes_of e) list.new.items (xs ++ from_defaults n distance scope)) }
{
    if left == 0 {
        return Ok(());
    }
    let Some(body) = body_of(&tree.spots, spot.round) else {
        return Ok(());
    };
    let Some(found) = layers.find(body) else {
        return Ok(());
    };
    let number = number_of(spot.round, count);
    add_defaults(list, found.defaults.before(spot.upto), kind, number)?;
    let Some(node) = spot.round else {
        return Ok(());
    };
    let Some(next) = spot_at(&tree.spots, node) else {
        return Ok(());
    };
    add_rounds(tree, layers, count, kind, &next, left - 1, list)?;
    Ok(())
}
