//! The items that a block's behaviour needs.

ghost use Rattle.std.specs.Prelude.{◌≡◌, ◌<◌, ◌≤◌, ◌^◌, ◌∷◌, [], ℕ, IfOk, OnErr, OnOk, Some, length, slice_get};
ghost use Rattle.rb_model.specs.declared.block.Field.{Field};
ghost use Rattle.rb_model.specs.declared.block.View.{View};
ghost use Rattle.rb_model.specs.declared.kinds.RefItem.{RefItem};
ghost use Rattle.rb_model.specs.References.{gate_refs};
ghost use Rattle.rb_model.specs.Sound.{IsSound};
ghost use Rattle.block_plan.specs.declared.outlets.Outlet.{Outlet};
ghost use Rattle.block_plan.specs.Plan.{IsPlanOf};
ghost use Rattle.block_plan.specs.Table as places;
ghost use Rattle.block_plan.specs.Needs.{field_needs};
ghost use Rattle.block_plan.specs.Wanted as spec;
ghost use Rattle.block_plan.specs.Wanted.{AreIn, IsAllWanted, IsClosed, IsMore};

use crate::adding::{gate_item, want, want_hardware, want_refs};
use crate::plan::Plan;
use crate::table::{item_place, table_len};
use rb_base::NoMemory;
use rb_model::{Block, RefItem};
use std::alloc::Global;

/// Whether an item is wanted.
pub fn is_wanted(wanted: &[bool], item: RefItem) -> bool
    ensures { result ≡ spec.is_wanted wanted.now item }
{
    match wanted.get(item_place(item)) {
        Some(wanted) => *wanted,
        None => false,
    }
}

/// Wants the items that outputs show.
fn want_outlets(wanted: &mut [bool], plan: &Plan)
    ensures older { IsMore wanted.old wanted.new }
    ensures shown { (k : ℕ) (o : Outlet) → slice_get plan.now.outlets.items k ≡ Some o → AreIn wanted.new (o.item ∷ []) }
{
    for outlet in &plan.outlets {
        want(wanted, Some(outlet.item));
    }
}

/// Wants the values of all fields, and what hardware's steps on them refer to. The only error is 2^32 fields or more.
fn want_fields(wanted: &mut [bool], block: &Block) -> Result<(), NoMemory>
    ensures older { OnOk result (IsMore wanted.old wanted.new) }
    ensures fields { OnOk result ((k : ℕ) (f : Field) → slice_get block.now.fields k ≡ Some f → AreIn wanted.new (field_needs k f)) }
    ensures over { OnErr result (2 ^ 32 ≤ length block.now.fields) }
{
    for (index, field) in block.fields.items.iter().enumerate() {
        // A list of so many fields would have ended memory long before.
        let Ok(number) = u32::try_from(index) else {
            return Err(NoMemory);
        };
        want(wanted, Some(RefItem::Field(number)));
        want_hardware(wanted, field);
    }
    Ok(())
}

/// Wants what the gates of views refer to.
fn want_views(wanted: &mut [bool], block: &Block)
    ensures older { IsMore wanted.old wanted.new }
    ensures views { (k : ℕ) (u : View) → slice_get block.now.views k ≡ Some u → AreIn wanted.new (gate_refs u.gate) }
{
    for view in &block.views.items {
        want(wanted, gate_item(view.gate));
    }
}

/// Wants what wanted items refer to: from the last item to the first, since each stands behind those that it refers to.
fn close(wanted: &mut [bool], block: &Block, plan: &Plan)
    requires sound { IsSound block.now }
    requires planned { IsPlanOf block.now plan.now }
    requires room { (k : ℕ) (i : RefItem) → slice_get block.now.order k ≡ Some i → places.item_place i < length wanted.old }
    ensures older { IsMore wanted.old wanted.new }
    ensures closed { IsClosed block.now wanted.new }
{
    let order: &[RefItem] = &block.order.items;
    for at in (0..order.len()).rev() {
        let item = order[at];
        if is_wanted(wanted, item) {
            want_refs(wanted, block, plan, item);
        }
    }
}

/// Wants the items that the behaviour of the whole block needs. The only error is 2^32 fields or more.
fn want_all(wanted: &mut [bool], block: &Block, plan: &Plan) -> Result<(), NoMemory>
    requires sound { IsSound block.now }
    requires planned { IsPlanOf block.now plan.now }
    requires room { (k : ℕ) (i : RefItem) → slice_get block.now.order k ≡ Some i → places.item_place i < length wanted.old }
    ensures all { OnOk result (IsAllWanted block.now wanted.new) }
    ensures closed { OnOk result (IsClosed block.now wanted.new) }
    ensures over { OnErr result (2 ^ 32 ≤ length block.now.fields) }
{
    want_outlets(wanted, plan);
    want_fields(wanted, block)?;
    want_views(wanted, block);
    close(wanted, block, plan);
    Ok(())
}

/// The items that the behaviour of the whole block needs, by their places: those that outputs show, all fields, those that the
/// behaviour of fields and the gates of views refer to, and those that these are made of. It takes time in proportion to the size
/// of the block. The only error is want of memory.
pub fn wanted(alloc: Global, block: &Block, plan: &Plan) -> Result<Vec<bool>, NoMemory>
    requires sound { IsSound block.now }
    requires planned { IsPlanOf block.now plan.now }
    ensures all { IfOk result (λ w. IsAllWanted block.now w.items) }
    ensures closed { IfOk result (λ w. IsClosed block.now w.items) }
{
    let mut wanted = vec![in alloc; false; table_len(&block.order.items)]?;
    want_all(&mut wanted, block, plan)?;
    Ok(wanted)
}
