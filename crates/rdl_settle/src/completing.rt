//! The entries of all nodes.

ghost use Rattle.std.specs.Prelude.{◌≡◌, ◌<◌, List, OnOk, length};
ghost use Rattle.rdl_tree.specs.declared.node.Elab.{Elab};
ghost use Rattle.rdl_base.specs.declared.fault.Fault.{Fault};
ghost use Rattle.rdl_values.specs.Elaborated.{nodes_of};
ghost use Rattle.rdl_nodes.specs.Rows.{AreRows};
ghost use Rattle.rdl_open_settings.specs.Completed.{IsScene};
ghost use Rattle.rdl_settle.specs.Gathered.{AreAssigned, AreCompleted, IsCompletedAt};

use crate::above::spot_at;
use rb_base::NoMemory;
use rdl_failures::Failures;
use rdl_layers::{PropSetting, assigned_from_above};
use rdl_nodes::Row;
use rdl_open_bodies::{OpenTree, Spot};
use rdl_open_settings::{LayerTable, complete_node};
use std::alloc::Global;

// Completes the entries of the node of a number.
fn complete_at<'a>(
    alloc: Global,
    tree: &OpenTree<'_, 'a>,
    layers: &LayerTable<'a>,
    count: u32,
    row: &Row<'a>,
    spot: &Spot,
    at: usize,
    entries: &mut Vec<Vec<PropSetting<'a>>>,
    failures: &mut Failures,
) -> Result<(), NoMemory>
    requires { at < length entries.old.items }
    ensures { OnOk result (IsCompletedAt tree.now layers.now count row.now.node.now spot.now at entries.old.items entries.new.items failures.old failures.new) }
{
    complete_node(
        alloc,
        tree,
        layers,
        count,
        row.node,
        spot,
        &mut entries[at],
        failures,
    )?;
    Ok(())
}

/// Puts what decides the properties of each node behind what the bodies above it assign, and puts in P9 to P11 of all nodes.
pub(crate) fn complete_all<'a>(
    alloc: Global,
    rows: &[Row<'a>],
    tree: &OpenTree<'_, 'a>,
    layers: &LayerTable<'a>,
    count: u32,
    entries: &mut Vec<Vec<PropSetting<'a>>>,
    failures: &mut Failures,
) -> Result<(), NoMemory>
    requires { length rows.now ≡ length entries.old.items }
    ensures { OnOk result ((e : Elab) (start : List Fault) (before : List Fault) → AreRows e rows.now → IsScene e tree.now layers.now count → AreAssigned e (nodes_of e) entries.old.items start before → AreCompleted e entries.new.items failures.old failures.new) }
{
    assigned_from_above();
    for (at, row) in rows.iter().enumerate() {
        let Some(spot) = spot_at(&tree.spots, at) else {
            return Ok(());
        };
        complete_at(
            alloc, tree, layers, count, row, &spot, at, entries, failures,
        )?;
    }
    Ok(())
}
