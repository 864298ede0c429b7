//! The fields of which hardware makes something by the number at one pin alone.
ghost use Rattle.std.specs.Prelude.{◌≡◌, ◌≢◌, ◌≤◌, ◌<◌, ℕ, Some, IfOk, length, slice_get};
ghost use Rattle.rb_model.specs.declared.block.Field.{Field};
ghost use Rattle.block_plan.specs.declared.plan.FieldPlaces.{FieldPlaces};
ghost use Rattle.rb_model.specs.Ports as ports;
ghost use Rattle.rb_model.specs.SoundField as sound;
ghost use Rattle.rb_machine.specs.Plain as spec;
ghost use Rattle.rb_machine.specs.Plain.{AreRising, AreSteps};
ghost use Rattle.rb_machine.specs.Scene.{state_at};
ghost use Rattle.rb_machine.specs.declared.plain.PlainField.{PlainField};

use crate::sight::FieldState;
use crate::table::number_at;
use block_plan::FieldPlaces;
use rb_base::NoMemory;
use rb_effects::{is_gated, is_interrupt, is_on, is_storage, ones};
use rb_model::{Amount, Count, Feed, Field, Part};
use std::alloc::Global;

/// A counter's step by the pin at a place: by this amount where its number isn't 0, in the bits that are 1 in `ones`.
#[derive(Clone, Copy)]
pub(crate) struct PinCount {
    pub pin: usize,
    pub amount: u64,
    pub ones: u64,
}

/// What hardware makes of a field by one pin at an edge: the number at the pin of a place, or a count by the pin.
#[derive(Clone, Copy)]
pub(crate) enum PinStep {
    Load(usize),
    Count(PinCount),
}

/// A field of which hardware makes something by one pin: its number, and what that is.
#[derive(Clone, Copy)]
pub(crate) struct PlainField {
    pub number: usize,
    pub step: PinStep,
}

/// Whether a feed gives numbers.
pub(crate) fn is_fed(from: Feed) -> bool
    ensures { result ≡ sound.is_fed from }
{
    match from {
        Feed::Off => false,
        Feed::Pin => true,
        Feed::Item(_) => true,
    }
}

/// Whether a feed is a pin.
pub(crate) fn is_pin(from: Feed) -> bool
    ensures { result ≡ ports.is_pin from }
{
    match from {
        Feed::Off => false,
        Feed::Pin => true,
        Feed::Item(_) => false,
    }
}

/// Whether an amount is a number.
fn is_number(amount: Amount) -> bool
    ensures { result ≡ spec.is_number amount }
{
    match amount {
        Amount::Number(_) => true,
        Amount::Item(_) => false,
        Amount::Pin(_) => false,
    }
}

/// The number of an amount, or 0 where it is none.
fn number_of(amount: Amount) -> u64
    ensures { result ≡ spec.number_of amount }
{
    match amount {
        Amount::Number(number) => number,
        Amount::Item(_) => 0,
        Amount::Pin(_) => 0,
    }
}

/// Whether a counter counts in one direction by a number at a pin's pulse.
fn counts_by_pin(part: Option<Part>) -> bool
    ensures { result ≡ spec.counts_by_pin part }
{
    match part {
        None => false,
        Some(part) => is_pin(part.pulse) && is_number(part.amount),
    }
}

/// How far a counter counts in one direction, where that is a number.
fn fixed_amount(part: Option<Part>) -> u64
    ensures { result ≡ spec.fixed_amount part }
{
    match part {
        None => 0,
        Some(part) => number_of(part.amount),
    }
}

/// Whether a counter counts up by a number at a pin's pulse, with no limit, and never down.
fn is_plain_count(count: Count) -> bool
    ensures { result ≡ spec.is_plain_count count }
{
    counts_by_pin(count.up) && count.down.is_none() && count.high.is_none() && count.low.is_none()
}

/// Whether a field takes the number of a pin at each edge, or is a counter by a pin alone.
fn moves_by_pin(field: &Field) -> bool
    ensures { result ≡ spec.moves_by_pin field.now }
{
    match field.count {
        None => field.hw_writes && is_pin(field.source),
        Some(count) => is_plain_count(count),
    }
}

/// Whether hardware makes something of a field by one pin alone, and before software.
pub(crate) fn is_plain(field: &Field) -> bool
    ensures { result ≡ spec.is_plain field.now }
{
    is_storage(field.class)
        && !field.hw_first
        && !is_interrupt(field.latch)
        && !field.pulse
        && !is_gated(field.gate)
        && !is_fed(field.set)
        && !is_fed(field.clear)
        && !is_on(field.keep)
        && moves_by_pin(field)
}

/// What hardware makes of a field by one pin.
fn pin_step(field: &Field, places: &FieldPlaces) -> PinStep
    requires { field.now.width ≤ 64 }
    ensures { result ≡ spec.pin_step field.now places.now }
{
    match field.count {
        None => PinStep::Load(places.source),
        Some(count) => PinStep::Count(PinCount {
            pin: places.up.pulse,
            amount: fixed_amount(count.up),
            ones: ones(field.width),
        }),
    }
}

/// What hardware makes of the field of a number by one pin.
fn step_at(places: &[FieldPlaces], number: usize, field: &Field) -> PinStep
    requires { field.now.width ≤ 64 }
    ensures { (p : FieldPlaces) → slice_get places.now number ≡ Some p → result ≡ spec.pin_step field.now p }
{
    match places.get(number) {
        None => PinStep::Load(0),
        Some(places) => pin_step(field, places),
    }
}

/// The fields of which hardware makes something by one pin, in order.
pub(crate) fn pin_steps(
    alloc: Global,
    fields: &[Field],
    places: &[FieldPlaces],
) -> Result<Vec<PlainField>, NoMemory>
    requires wide { (k : ℕ) (f : Field) → slice_get fields.now k ≡ Some f → f.width ≤ 64 }
    ensures { IfOk result (λ all. AreSteps fields.now places.now all.items) }
{
    let mut all = Vec::new(alloc);
    for (number, field) in fields.iter().enumerate() {
        if !is_plain(field) {
            continue;
        }
        all.push(PlainField {
            number,
            step: step_at(places, number, field),
        })?;
    }
    Ok(all)
}

/// A value counted up by a pin.
fn counted_up(pins: &[u64], count: PinCount, value: u64) -> u64
    ensures { result ≡ spec.counted_up pins.now count value }
{
    let up = if number_at(pins, count.pin) == 0 {
        0
    } else {
        count.amount
    };
    value.wrapping_add(up) & count.ones
}

/// What a step makes of a value.
fn stepped(pins: &[u64], step: PinStep, value: u64) -> u64
    ensures { result ≡ spec.step_value pins.now step value }
{
    match step {
        PinStep::Load(pin) => number_at(pins, pin),
        PinStep::Count(count) => counted_up(pins, count, value),
    }
}

/// What the field has whose hardware takes this step.
fn begun(pins: &[u64], step: PinStep, state: FieldState) -> FieldState
    ensures { result ≡ spec.begun_by pins.now step state }
{
    FieldState {
        value: stepped(pins, step, state.value),
        last: state.last,
        done: state.done,
    }
}

/// Lets the hardware of these fields act, each by its pin.
pub(crate) fn take_steps(pins: &[u64], steps: &[PlainField], states: &mut [FieldState])
    requires rising { AreRising steps.now }
    requires room { (j : ℕ) (t : PlainField) → slice_get steps.now j ≡ Some t → t.number < length states.old }
    ensures moved { (j : ℕ) (t : PlainField) → slice_get steps.now j ≡ Some t → state_at states.new t.number ≡ spec.begun_by pins.now t.step (state_at states.old t.number) }
    ensures others { (k : ℕ) → ((j : ℕ) (t : PlainField) → slice_get steps.now j ≡ Some t → t.number ≢ k) → state_at states.new k ≡ state_at states.old k }
{
    for plain in steps {
        let number = plain.number;
        states[number] = begun(pins, plain.step, states[number]);
    }
}
