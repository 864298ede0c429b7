//! Resets, and the pins of signals.
ghost use Rattle.std.specs.Prelude.{◌≡◌, ℕ, false, true, Contains, IfOk, Some, ◌&&◌, not, length, slice_get};
ghost use Rattle.std.specs.List.{list_any};
ghost use Rattle.std.specs.Option.{option_map_or};
ghost use Rattle.rb_model.specs.declared.block.Field.{Field};
ghost use Rattle.rb_model.specs.Machine as spec;
ghost use Rattle.rb_model.specs.Ports.{input_pins, signal_name};
ghost use Rattle.rb_model.specs.Run.{pins_of};
ghost use Rattle.rb_model.specs.Sound.{IsSound};
ghost use Rattle.rb_machine.specs.Moves as moves;
ghost use Rattle.rb_machine.specs.Resets.{AreWays, NoneReset};
ghost use Rattle.block_plan.specs.Plan.{IsPlanOf};
ghost use Rattle.rb_machine.specs.Scene.{state_at};

use crate::sight::FieldState;
use crate::table::number_at;
use block_plan::Plan;
use rb_base::NoMemory;
use rb_effects::{is_storage, keeps_last};
use rb_model::{Block, Field, ResetBy};
use std::alloc::Global;

/// The number at the pin of the signal of a number, or 0 where there is none.
pub(crate) fn signal_pin(block: &Block, plan: &Plan, pins: &[u64], number: u32) -> u64
    requires sound { IsSound block.now }
    requires planned { IsPlanOf block.now plan.now }
    requires sized { length pins.now ≡ length (input_pins block.now) }
    ensures { result ≡ option_map_or (λ g. pins_of block.now pins.now (signal_name g)) (slice_get block.now.signals number) 0 }
{
    if number as usize >= block.signals.items.len() {
        return 0;
    }
    match plan.signals.get(number as usize) {
        Some(place) => number_at(pins, *place),
        None => 0,
    }
}

/// The number at the pin of a reset.
fn reset_pin(block: &Block, plan: &Plan, pins: &[u64], by: ResetBy) -> u64
    requires sound { IsSound block.now }
    requires planned { IsPlanOf block.now plan.now }
    requires sized { length pins.now ≡ length (input_pins block.now) }
    ensures { result ≡ spec.reset_pin block.now (pins_of block.now pins.now) by }
{
    match by.signal {
        None => number_at(pins, plan.bus.resetn),
        Some(signal) => signal_pin(block, plan, pins, signal),
    }
}

/// Whether a reset is asserted.
pub(crate) fn is_asserted(block: &Block, plan: &Plan, pins: &[u64], by: ResetBy) -> bool
    requires sound { IsSound block.now }
    requires planned { IsPlanOf block.now plan.now }
    requires sized { length pins.now ≡ length (input_pins block.now) }
    ensures { result ≡ spec.is_asserted block.now (pins_of block.now pins.now) by }
{
    let asserted = if by.low { 0 } else { 1 };
    reset_pin(block, plan, pins, by) == asserted
}

/// Whether this way is the last of them.
fn is_last(ways: &[ResetBy], by: ResetBy) -> bool
    ensures { result ≡ true → Contains ways.now by }
{
    match ways.last() {
        None => false,
        Some(last) => *last == by,
    }
}

/// The ways in which fields are reset, in order, each once where it comes several times in turn.
pub(crate) fn reset_ways(alloc: Global, fields: &[Field]) -> Result<Vec<ResetBy>, NoMemory>
    ensures { IfOk result (λ ways. AreWays fields.now ways.items) }
{
    let mut ways = Vec::new(alloc);
    for field in fields {
        if is_last(&ways, field.reset_by) {
            continue;
        }
        ways.push(field.reset_by)?;
    }
    Ok(ways)
}

/// Whether a reset is asserted in one of these ways.
pub(crate) fn some_asserted(block: &Block, plan: &Plan, pins: &[u64], ways: &[ResetBy]) -> bool
    requires sound { IsSound block.now }
    requires planned { IsPlanOf block.now plan.now }
    requires sized { length pins.now ≡ length (input_pins block.now) }
    ensures { result ≡ list_any (spec.is_asserted block.now (pins_of block.now pins.now)) ways.now }
{
    for by in ways {
        if is_asserted(block, plan, pins, *by) {
            return true;
        }
    }
    false
}

/// What a field keeps, under reset or not. One without a reset value keeps its value.
pub(crate) fn reset_state(field: &Field, asserted: bool, state: FieldState) -> FieldState
    ensures { result ≡ moves.reset_state field.now asserted state }
{
    if asserted {
        FieldState {
            value: field.reset.unwrap_or(state.value),
            last: 0,
            done: 0,
        }
    } else {
        state
    }
}

/// An asserted asynchronous reset acts on what the fields keep before anything is read. `is_reset` is false only where no reset
/// of a field is asserted.
pub(crate) fn hold_fields(
    block: &Block,
    plan: &Plan,
    pins: &[u64],
    is_reset: bool,
    states: &mut [FieldState],
)
    requires sound { IsSound block.now }
    requires planned { IsPlanOf block.now plan.now }
    requires sized { length pins.now ≡ length (input_pins block.now) }
    requires states { length states.old ≡ length block.now.fields }
    requires calm { is_reset ≡ false → NoneReset block.now (pins_of block.now pins.now) }
    ensures still { is_reset ≡ false → states.new ≡ states.old }
    ensures reset { (k : ℕ) (f : Field) → slice_get block.now.fields k ≡ Some f
        → state_at states.new k ≡ moves.reset_state f (spec.is_asserted block.now (pins_of block.now pins.now) f.reset_by && not f.reset_by.sync) (state_at states.old k) }
{
    if !is_reset {
        return;
    }
    for (number, field) in block.fields.items.iter().enumerate() {
        let asserted = is_asserted(block, plan, pins, field.reset_by) && !field.reset_by.sync;
        states[number] = reset_state(field, asserted, states[number]);
    }
}

/// What a field keeps of this.
pub(crate) fn kept_state(field: &Field, state: FieldState) -> FieldState
    ensures { result ≡ moves.kept_state field.now state }
{
    FieldState {
        value: if is_storage(field.class) {
            state.value
        } else {
            0
        },
        last: if keeps_last(field.latch) {
            state.last
        } else {
            0
        },
        done: if field.once { state.done } else { 0 },
    }
}
