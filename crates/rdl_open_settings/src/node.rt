//! One node.

ghost use Rattle.std.specs.Prelude.{◌≡◌, ◌⊎◌, ◌++◌, ℕ, List, OnOk, flat_map};
ghost use Rattle.rdl_tree.specs.declared.item.Kind.TheVariants as kinds;
ghost use Rattle.rdl_tree.specs.declared.node.Elab.{Elab};
ghost use Rattle.rdl_tree.specs.declared.node.Node.{Node as AnyNode, out-Node};
ghost use Rattle.rdl_values.specs.Bodies.{standing};
ghost use Rattle.rdl_values.specs.Elaborated.{nodes_of};
ghost use Rattle.rdl_values.specs.Instances.{Instance};
ghost use Rattle.rdl_failures.specs.Noted.{with_all};
ghost use Rattle.rdl_layers.specs.Phase4.{of_node};
ghost use Rattle.rdl_layers.specs.Settings.{Applied, applied_to, from_above, from_body, from_instance};
ghost use Rattle.rdl_merge.specs.Merged.{AreEntries};
ghost use Rattle.rdl_open_bodies.specs.declared.spots.OpenTree.{OpenTree as TreeOf};
ghost use Rattle.rdl_open_settings.specs.Completed.{IsNode, IsScene};

use crate::rounds::add_rounds;
use crate::table::LayerTable;
use rb_base::NoMemory;
use rdl_failures::Failures;
use rdl_layers::PropSetting;
use rdl_merge::{add_given, add_reset, judge_register, judge_unit};
use rdl_open_bodies::{OpenTree, Spot};
use rdl_tree::{Kind, Node};
use rdl_values::Chain;
use std::alloc::Global;

// Moves entries to a list with no room to spare.
fn fit<'a>(alloc: Global, list: &mut Vec<PropSetting<'a>>) -> Result<(), NoMemory>
    ensures { OnOk result (list.new.items ≡ list.old.items) }
{
    if list.len() < list.capacity() {
        *list = Vec::from_slice(alloc, list.as_slice())?;
    }
    Ok(())
}

// Puts the value that a node's instance has of its own behind others.
fn add_own<'a>(
    tree: &OpenTree<'_, 'a>,
    node: &Node<'a>,
    spot: &Spot,
    list: &mut Vec<PropSetting<'a>>,
) -> Result<(), NoMemory>
    ensures { OnOk result ((e : Elab) (n : Instance) (xs : List Applied) → IsNode e tree.now node.now spot.now n → AreEntries (nodes_of e) list.old.items xs → AreEntries (nodes_of e) list.new.items (xs ++ from_instance n.use_)) }
{
    let Some(inst) = node.inst else {
        return Ok(());
    };
    let Some(body) = tree.bodies.body(spot.within) else {
        return Ok(());
    };
    let visible = Chain {
        nearest: None,
        tables: tree.bodies.tables(),
        numbers: body.numbers,
    };
    add_reset(list, inst.reset, &visible)?;
    Ok(())
}

// Puts what the body of its definition assigns to a node behind others.
fn add_body<'a>(
    layers: &LayerTable<'a>,
    number: u32,
    spot: &Spot,
    list: &mut Vec<PropSetting<'a>>,
) -> Result<(), NoMemory>
    ensures { OnOk result ((e : Elab) (tree : TreeOf) (count : ℕ) (r : AnyNode) (n : Instance) (xs : List Applied) → IsScene e tree layers.now count → IsNode e tree r spot.now n → (out-Node r).id ≡ number
        → AreEntries (nodes_of e) list.old.items xs → AreEntries (nodes_of e) list.new.items (xs ++ from_body n)) }
{
    let Some(found) = layers.find(spot.body) else {
        return Ok(());
    };
    add_given(list, &found.locals, number)?;
    Ok(())
}

// Puts in P11 of a field or a signal, the text of which sees the names of the body that its use stands in.
fn judge_unit_of<'a>(
    alloc: Global,
    tree: &OpenTree<'_, 'a>,
    node: &Node<'a>,
    spot: &Spot,
    list: &[PropSetting<'a>],
    failures: &mut Failures,
) -> Result<(), NoMemory>
    ensures { OnOk result ((e : Elab) (n : Instance) → ((out-Node node.now).kind ≡ kinds.Field) ⊎ ((out-Node node.now).kind ≡ kinds.Signal) → IsNode e tree.now node.now spot.now n → AreEntries (nodes_of e) list.now (applied_to n)
        → failures.new ≡ with_all (of_node n) failures.old) }
{
    let Some(inst) = node.inst else {
        return Ok(());
    };
    let Some(body) = tree.bodies.body(spot.within) else {
        return Ok(());
    };
    let visible = Chain {
        nearest: None,
        tables: tree.bodies.tables(),
        numbers: body.numbers,
    };
    judge_unit(alloc, inst, node.kind, node.place, list, &visible, failures)?;
    Ok(())
}

// Puts in P9 to P11 of a node.
fn judge_widths<'a>(
    alloc: Global,
    tree: &OpenTree<'_, 'a>,
    node: &Node<'a>,
    spot: &Spot,
    list: &[PropSetting<'a>],
    failures: &mut Failures,
) -> Result<(), NoMemory>
    ensures { OnOk result ((e : Elab) (n : Instance) → IsNode e tree.now node.now spot.now n → AreEntries (nodes_of e) list.now (applied_to n) → failures.new ≡ with_all (of_node n) failures.old) }
{
    match node.kind {
        Kind::Reg => {
            judge_register(list, node.place, failures)?;
            Ok(())
        }
        Kind::Field => {
            judge_unit_of(alloc, tree, node, spot, list, failures)?;
            Ok(())
        }
        Kind::Signal => {
            judge_unit_of(alloc, tree, node, spot, list, failures)?;
            Ok(())
        }
        _ => Ok(()),
    }
}

/// Puts what decides the properties of a node behind what the bodies above it assign to it: the instance's own value, the body of its
/// definition, and defaults. Then puts in P9 to P11 of the node. The list is kept from then on, so it has no room to spare.
pub fn complete_node<'a>(
    alloc: Global,
    tree: &OpenTree<'_, 'a>,
    layers: &LayerTable<'a>,
    count: u32,
    node: &Node<'a>,
    spot: &Spot,
    list: &mut Vec<PropSetting<'a>>,
    failures: &mut Failures,
) -> Result<(), NoMemory>
    ensures entries { OnOk result ((e : Elab) (n : Instance) → IsScene e tree.now layers.now count → IsNode e tree.now node.now spot.now n → AreEntries (nodes_of e) list.old.items (flat_map (from_above n) (standing n.above)) → AreEntries (nodes_of e) list.new.items (applied_to n)) }
    ensures noted { OnOk result ((e : Elab) (n : Instance) → IsScene e tree.now layers.now count → IsNode e tree.now node.now spot.now n → AreEntries (nodes_of e) list.old.items (flat_map (from_above n) (standing n.above)) → failures.new ≡ with_all (of_node n) failures.old) }
{
    add_own(tree, node, spot, list)?;
    add_body(layers, node.id, spot, list)?;
    add_rounds(tree, layers, count, node.kind, spot, spot.depth, list)?;
    fit(alloc, list)?;
    judge_widths(alloc, tree, node, spot, list, failures)?;
    Ok(())
}
