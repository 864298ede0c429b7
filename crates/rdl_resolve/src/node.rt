//! The items that the settings of a node name.

ghost use Rattle.std.specs.Prelude.{◌≡◌, ◌<◌, ◌++◌, flat_map, OnOk, Some, slice_get};
ghost use Rattle.rdl_props.specs.Table.{reference_props as listed};
ghost use Rattle.rdl_values.specs.Elaborated.{nodes_of};
ghost use Rattle.rdl_values.specs.Instances.{Instance};
ghost use Rattle.rdl_layers.specs.Settings.{setting as setting_of};
ghost use Rattle.rdl_resolve.specs.Aimed.{IsAim, IsNamedTree};
ghost use Rattle.rdl_resolve.specs.Named.{AddsAim, AddsAims};

use crate::aims::{Aim, NamedTree, aim_of};
use rb_base::NoMemory;
use rdl_base::Fault;
use rdl_layers::Props;
use rdl_props::{Prop, reference_props};
use rdl_refs::ItemOf;
use std::alloc::Global;

/// The item that a property's setting names.
#[derive(Clone, Copy)]
pub struct NamedItem {
    pub prop: Prop,
    pub item: ItemOf,
}

/// Adds what an aim has.
fn add_aim(
    prop: Prop,
    aim: Aim,
    items: &mut Vec<NamedItem>,
    faults: &mut Vec<Fault>,
) -> Result<(), NoMemory>
    ensures { OnOk result (AddsAim prop aim items.old.items items.new.items faults.old.items faults.new.items) }
{
    if let Some(item) = aim.target {
        items.push(NamedItem { prop, item })?;
    }
    if let Some(fault) = aim.fault {
        faults.push(fault)?;
    }
    Ok(())
}

/// Adds the items that the settings of a node name, and their failures of R1 and R2.
pub(crate) fn add_node<'a>(
    alloc: Global,
    known: NamedTree<'_, 'a>,
    props: &Props<'a>,
    node: u32,
    items: &mut Vec<NamedItem>,
    faults: &mut Vec<Fault>,
) -> Result<(), NoMemory>
    requires known { IsNamedTree known }
    requires tree { props.now ≡ known.elab.now }
    requires node { node < props.now.count }
    ensures { OnOk result ((n : Instance) → slice_get (nodes_of props.now) node ≡ Some n → AddsAims props.now n listed items.old.items items.new.items faults.old.items faults.new.items) }
{
    let list = reference_props();
    for prop in &list {
        let setting = props.value(node, *prop);
        let aim = aim_of(alloc, known, props, *prop, &setting)?;
        add_aim(*prop, aim, items, faults)?;
    }
    Ok(())
}
