//! Where the values of items come from.
ghost use Rattle.std.specs.Prelude.{◌≡◌, List, Some, IfOk, slice_get};
ghost use Rattle.rb_model.specs.declared.block.Block.{Block};
ghost use Rattle.rb_model.specs.declared.kinds.Class.{Class};
ghost use Rattle.rb_model.specs.declared.kinds.RefItem.{RefItem};
ghost use Rattle.block_plan.specs.Plan.{IsPlanOf};
ghost use Rattle.rb_machine.specs.Sources.{AreSources, IsSourceOf};

use crate::plain::is_pin;
use block_plan::Plan;
use rb_base::NoMemory;
use rb_model::{Block, Class, Field, RefItem};
use std::alloc::Global;

/// Where the value of an item comes from at an edge: what is held of the field of a number, the pin at a place, or else all that
/// the item is made of.
#[derive(Clone, Copy)]
pub(crate) enum Source {
    Made,
    Held(u32),
    Pin(usize),
}

/// Where the value of the field of a number comes from that keeps none.
fn wire_source(plan: &Plan, number: u32, field: &Field) -> Source
    ensures { (b : Block) → IsPlanOf b plan.now → slice_get b.fields number ≡ Some field.now → field.now.class ≡ Class.Wire
        → IsSourceOf b (RefItem.Field number) result }
{
    if !is_pin(field.source) {
        return Source::Made;
    }
    match plan.fields.get(number as usize) {
        None => Source::Made,
        Some(places) => Source::Pin(places.source),
    }
}

/// Where the value of the field of a number comes from, by its class.
fn class_source(plan: &Plan, number: u32, field: &Field) -> Source
    ensures { (b : Block) → IsPlanOf b plan.now → slice_get b.fields number ≡ Some field.now → IsSourceOf b (RefItem.Field number) result }
{
    match field.class {
        Class::Storage => Source::Held(number),
        Class::Wire => wire_source(plan, number, field),
        Class::Constant => Source::Made,
    }
}

/// Where the value of the field of a number comes from.
fn field_source(block: &Block, plan: &Plan, number: u32) -> Source
    requires planned { IsPlanOf block.now plan.now }
    ensures { IsSourceOf block.now (RefItem.Field number) result }
{
    match block.fields.items.get(number as usize) {
        None => Source::Made,
        Some(field) => class_source(plan, number, field),
    }
}

/// Where the value of an item comes from.
fn source_of(block: &Block, plan: &Plan, item: RefItem) -> Source
    requires planned { IsPlanOf block.now plan.now }
    ensures { IsSourceOf block.now item result }
{
    match item {
        RefItem::Field(number) => field_source(block, plan, number),
        _ => Source::Made,
    }
}

/// Where the values of items come from, in their order.
pub(crate) fn item_sources(
    alloc: Global,
    block: &Block,
    plan: &Plan,
    order: &[RefItem],
) -> Result<Vec<Source>, NoMemory>
    requires planned { IsPlanOf block.now plan.now }
    ensures { IfOk result (λ all. AreSources block.now order.now all.items) }
{
    let mut all = Vec::new(alloc);
    for item in order {
        all.push(source_of(block, plan, *item))?;
    }
    Ok(all)
}

/// Where the value of the item at a place of the order comes from.
pub(crate) fn source_at(sources: &[Source], place: usize) -> Source
    ensures { (b : Block) (order : List RefItem) (i : RefItem) → AreSources b order sources.now → slice_get order place ≡ Some i → IsSourceOf b i result }
{
    match sources.get(place) {
        None => Source::Made,
        Some(source) => *source,
    }
}
