//! A register of a tree.

ghost use Rattle.std.specs.Prelude.{◌≡◌, ◌+◌, ◌<◌, ◌≤◌, ◌^◌, IfOk, OnErr, Some, slice_get, true};
ghost use Rattle.rdl_tree.specs.declared.item.Kind.TheVariants as kinds;
ghost use Rattle.rdl_tree.specs.declared.node.Node.{out-Node};
ghost use Rattle.rdl_values.specs.Elaborated.{nodes_of};
ghost use Rattle.rdl_values.specs.Elaboration.{IsClean};
ghost use Rattle.rdl_values.specs.Instances.{Instance};
ghost use Rattle.rdl_values.specs.Lineages.{Lineage};
ghost use Rattle.rdl_layers.specs.Answers.{IsSettled};
ghost use Rattle.rdl_layers.specs.Fields.{is_a};
ghost use Rattle.rdl_addr.specs.Answers.{IsPlaced};
ghost use Rattle.rdl_block_words.specs.Access as spec;
ghost use Rattle.rdl_block_words.specs.Entries.{IsEntryAt, IsRegisterRow, IsShapeAt};

use crate::entry::PlacedRegister;
use crate::word::Shape;
use rb_base::NoMemory;
use rdl_addr::{Map, number, register_side};
use rdl_fields::views_in;
use rdl_layers::Props;
use rdl_layout::Side;
use rdl_nodes::Row;
use rdl_props::Prop;
use rdl_tree::Node;
use std::alloc::Global;

/// Whether software only reads.
fn is_read(side: Side) -> bool
    ensures { result ≡ spec.is_read side }
{
    matches!(side, Side::Reads)
}

/// Whether software only writes.
fn is_written(side: Side) -> bool
    ensures { result ≡ spec.is_written side }
{
    matches!(side, Side::Writes)
}

/// A number, and so many more. The only error is a number at or above 2^32.
pub(crate) fn behind(number: u32, count: usize) -> Result<u32, NoMemory>
    ensures is { IfOk result (λ next. next ≡ number + count) }
    ensures below { IfOk result (λ next. number + count < 2 ^ 32) }
    ensures over { OnErr result (2 ^ 32 ≤ number + count) }
{
    let Ok(count) = u32::try_from(count) else {
        return Err(NoMemory);
    };
    match number.checked_add(count) {
        Some(next) => Ok(next),
        None => Err(NoMemory),
    }
}

/// Where a register stands that has this number among the registers, and its first field this one among the views.
fn shape(props: &Props<'_>, map: &Map<'_>, node: &Node<'_>, at: u32, first_view: u32) -> Shape
    requires clean { IsClean props.now }
    requires settled { IsSettled props.now }
    requires placed { IsPlaced props.now }
    requires map { map.now ≡ props.now }
    requires register { (n : Instance) × (slice_get (nodes_of props.now) (out-Node node.now).id ≡ Some n) × (is_a kinds.Reg n ≡ true) }
    ensures { IsShapeAt props.now (out-Node node.now).id at first_view result }
{
    let address = map.address(node.id);
    let regwidth = number(props, node.id, Prop::Regwidth);
    let accesswidth = number(props, node.id, Prop::Accesswidth);
    Shape {
        number: at,
        first_view,
        address: address as u32,
        regwidth: regwidth as u8,
        accesswidth: accesswidth as u8,
    }
}

/// The register of a row, which has this number among the registers, and its first field this one among the views. The only error is
/// want of memory.
pub(crate) fn entry<'a>(
    alloc: Global,
    props: &Props<'_>,
    map: &Map<'_>,
    row: &Row<'a>,
    at: u32,
    first_view: u32,
) -> Result<PlacedRegister<'a>, NoMemory>
    requires clean { IsClean props.now }
    requires settled { IsSettled props.now }
    requires placed { IsPlaced props.now }
    requires map { map.now ≡ props.now }
    requires row { (l : Lineage) × IsRegisterRow props.now row.now l }
    ensures { IfOk result (IsEntryAt props.now (out-Node row.now.node.now).id at first_view) }
{
    let node = row.node;
    let views = views_in(alloc, map, node)?;
    let next_view = behind(first_view, views.len())?;
    let shape = shape(props, map, node, at, first_view);
    let side = register_side(props, node.children);
    Ok(PlacedRegister {
        shape,
        is_read_only: is_read(side),
        is_write_only: is_written(side),
        views,
        next_view,
    })
}
