//! What software and hardware make of a field's value (SystemRDL 2.0, clause 9). Widths are at most 64 bits.
ghost use Rattle.std.specs.Prelude.{◌≡◌, ◌≤◌, ◌^◌, ◌+◌, ◌-◌, ◌%◌, if◌then◌else◌};
ghost use Rattle.rb_base.specs.Bits as bits;
ghost use Rattle.rb_model.specs.Effects as spec;
ghost use Rattle.rb_model.specs.Kept as kept_spec;
ghost use Rattle.rb_model.specs.Items as items_spec;

use rb_base::Trigger;
use rb_model::{Class, Field, Gate, Latch, Mask, OnRead, OnWrite, View};

/// The greatest number of so many bits.
pub fn ones(width: u8) -> u64
    requires { width ≤ 64 }
    ensures { result ≡ bits.ones width }
{
    if width == 64 {
        u64::MAX
    } else {
        (1 << width) - 1
    }
}

/// Each bit of a number turned.
fn turned(width: u8, number: u64) -> u64
    requires { width ≤ 64 }
    ensures { result ≡ spec.turned width number }
{
    ones(width).saturating_sub(number)
}

/// Whether a gate is active, whose pin or item has this value.
fn is_open(gate: Gate, value: u64) -> bool
    ensures { result ≡ spec.is_open gate value }
{
    match gate {
        Gate::Always => true,
        Gate::High(_) => value == 1,
        Gate::Low(_) => value == 0,
    }
}

/// Whether a gate has a pin or an item.
pub fn is_gated(gate: Gate) -> bool
    ensures { result ≡ spec.is_gated gate }
{
    match gate {
        Gate::Always => false,
        Gate::High(_) => true,
        Gate::Low(_) => true,
    }
}

/// What a write of bits makes of a value (9.6, onwrite).
fn written(on_write: OnWrite, width: u8, value: u64, bits: u64) -> u64
    requires { width ≤ 64 }
    ensures { result ≡ spec.written on_write width value bits }
{
    match on_write {
        OnWrite::Off => bits,
        OnWrite::WoSet => value | bits,
        OnWrite::WoClr => value & turned(width, bits),
        OnWrite::WoT => value ^ bits,
        OnWrite::WzS => value | turned(width, bits),
        OnWrite::WzC => value & bits,
        OnWrite::WzT => value ^ turned(width, bits),
        OnWrite::WClr => 0,
        OnWrite::WSet => ones(width),
    }
}

/// What a read makes of a value (9.6, onread).
pub fn after_read(on_read: OnRead, width: u8, value: u64) -> u64
    requires { width ≤ 64 }
    ensures { result ≡ spec.after_read on_read width value }
{
    match on_read {
        OnRead::Off => value,
        OnRead::RClr => 0,
        OnRead::RSet => ones(width),
    }
}

/// Whether a read changes a value.
pub fn has_read_effect(on_read: OnRead) -> bool
    ensures { result ≡ spec.has_read_effect on_read }
{
    match on_read {
        OnRead::Off => false,
        OnRead::RClr => true,
        OnRead::RSet => true,
    }
}

/// Whether a write through a view acts, whose gate has this value, where `done` says that the field was written before.
pub fn acts(view: &View, gate: u64, done: bool) -> bool
    ensures { result ≡ spec.acts view.now gate (if done then 1 else 0) }
{
    view.writes && is_open(view.gate, gate) && !(view.once && done)
}

/// What a write makes of a value, where it acts or doesn't.
pub fn after_write(view: &View, width: u8, acts: bool, value: u64, bits: u64) -> u64
    requires { width ≤ 64 }
    ensures { result ≡ (if acts then spec.written view.now.on_write width value bits else value) }
{
    if acts {
        written(view.on_write, width, value, bits)
    } else {
        value
    }
}

/// Whether an interrupt keeps its events.
pub fn is_latching(latch: Latch) -> bool
    ensures { result ≡ spec.is_latching latch }
{
    match latch {
        Latch::Off => false,
        Latch::Bits(_) => true,
        Latch::Whole(_) => true,
        Latch::Plain => false,
    }
}

/// Whether a field takes numbers from its source.
pub fn loads(field: &Field) -> bool
    ensures { result ≡ spec.loads field.now }
{
    if field.count.is_some() {
        is_gated(field.gate)
    } else {
        field.hw_writes && !is_latching(field.latch)
    }
}

/// The first step of hardware: the load of a number, where the gate has this value.
pub fn loaded(field: &Field, value: u64, source: u64, gate: u64) -> u64
    ensures { result ≡ spec.loaded field.now value source gate }
{
    if field.pulse {
        0
    } else if loads(field) && is_open(field.gate, gate) {
        source
    } else {
        value
    }
}

/// Whether a count reaches over a level.
fn is_over(value: u64, up: u64, down: u64, high: Option<u64>) -> bool
    ensures { result ≡ spec.is_over value up down high }
{
    match high {
        None => false,
        Some(high) => {
            0 < up && u128::from(high) + u128::from(down) < u128::from(value) + u128::from(up)
        }
    }
}

/// Whether a count reaches under a level.
fn is_under(value: u64, up: u64, down: u64, low: Option<u64>) -> bool
    ensures { result ≡ spec.is_under value up down low }
{
    match low {
        None => false,
        Some(low) => {
            0 < down && u128::from(value) + u128::from(up) < u128::from(low) + u128::from(down)
        }
    }
}

/// A sum less a number, modulo 2 to a width.
fn wrapped(width: u8, value: u64, up: u64, down: u64) -> u64
    requires { width ≤ 64 }
    ensures { result ≡ (value + up + 2 ^ width - down) % 2 ^ width }
{
    let modulus = 1u128 << width;
    let sum = u128::from(value) + u128::from(up) + modulus;
    (sum.saturating_sub(u128::from(down)) % modulus) as u64
}

/// The second step of hardware: the count, with the levels at which it saturates.
pub fn counted(
    width: u8,
    value: u64,
    up: u64,
    down: u64,
    high: Option<u64>,
    low: Option<u64>,
) -> u64
    requires { width ≤ 64 }
    ensures { result ≡ spec.counted width value up down high low }
{
    if is_over(value, up, down, high) {
        high.unwrap_or(0)
    } else if is_under(value, up, down, low) {
        low.unwrap_or(0)
    } else {
        wrapped(width, value, up, down)
    }
}

/// Whether a count leaves its width upwards.
pub fn overflows(width: u8, value: u64, up: u64, down: u64) -> u64
    requires { width ≤ 64 }
    ensures { result ≡ spec.overflows width value up down }
{
    let end = (1u128 << width) + u128::from(down);
    u64::from(end <= u128::from(value) + u128::from(up))
}

/// Whether a count goes below 0.
pub fn underflows(value: u64, up: u64, down: u64) -> u64
    ensures { result ≡ spec.underflows value up down }
{
    u64::from(u128::from(value) + u128::from(up) < u128::from(down))
}

/// The events at an interrupt's input (9.9).
fn events(trigger: Trigger, width: u8, input: u64, last: u64) -> u64
    requires { width ≤ 64 }
    ensures { result ≡ spec.events trigger width input last }
{
    match trigger {
        Trigger::Level => input,
        Trigger::Posedge => input & turned(width, last),
        Trigger::Negedge => turned(width, input) & last,
        Trigger::Bothedge => input ^ last,
        Trigger::Nonsticky => input,
    }
}

/// The third step of hardware: the latch of an interrupt's events.
pub fn latched(latch: Latch, width: u8, value: u64, input: u64, last: u64) -> u64
    requires { width ≤ 64 }
    ensures { result ≡ spec.latched latch width value input last }
{
    match latch {
        Latch::Off => value,
        Latch::Bits(trigger) => value | events(trigger, width, input, last),
        Latch::Whole(trigger) => {
            if value == 0 {
                events(trigger, width, input, last)
            } else {
                value
            }
        }
        Latch::Plain => value,
    }
}

/// The next steps of hardware: hwset and hwclr.
fn set_or_cleared(width: u8, value: u64, set: u64, clear: u64) -> u64
    requires { width ≤ 64 }
    ensures { result ≡ spec.set_or_cleared width value set clear }
{
    if clear == 1 {
        0
    } else if set == 1 {
        ones(width)
    } else {
        value
    }
}

/// A value in the bits that a mask lets through, and the old value in the others.
fn masked(mask: Mask, width: u8, old: u64, value: u64, bits: u64) -> u64
    requires { width ≤ 64 }
    ensures { result ≡ spec.masked mask width old value bits }
{
    match mask {
        Mask::Off => value,
        Mask::Enable(_) => (value & bits) | (old & turned(width, bits)),
        Mask::Mask(_) => (value & turned(width, bits)) | (old & bits),
    }
}

/// The last steps of hardware: hwset, hwclr, and hwenable or hwmask.
pub fn finished(field: &Field, old: u64, value: u64, set: u64, clear: u64, bits: u64) -> u64
    requires { field.now.width ≤ 64 }
    ensures { result ≡ spec.finished field.now old value set clear bits }
{
    let value = set_or_cleared(field.width, value, set, clear);
    masked(field.keep, field.width, old, value, bits)
}

/// The bits of an interrupt that count.
pub fn counting(mask: Mask, width: u8, value: u64, bits: u64) -> u64
    requires { width ≤ 64 }
    ensures { result ≡ spec.counting mask width value bits }
{
    match mask {
        Mask::Off => value,
        Mask::Enable(_) => value & bits,
        Mask::Mask(_) => value & turned(width, bits),
    }
}

/// Whether a field is an interrupt.
pub fn is_interrupt(latch: Latch) -> bool
    ensures { result ≡ items_spec.is_interrupt latch }
{
    match latch {
        Latch::Off => false,
        Latch::Bits(_) => true,
        Latch::Whole(_) => true,
        Latch::Plain => true,
    }
}

/// Whether there is a mask.
pub fn is_on(mask: Mask) -> bool
    ensures { result ≡ items_spec.is_on mask }
{
    match mask {
        Mask::Off => false,
        Mask::Enable(_) => true,
        Mask::Mask(_) => true,
    }
}

/// Whether a field of a class keeps its value.
pub fn is_storage(class: Class) -> bool
    ensures { result ≡ kept_spec.is_storage class }
{
    match class {
        Class::Storage => true,
        Class::Wire => false,
        Class::Constant => false,
    }
}

/// Whether events are told from the input before.
fn waits_for_change(trigger: Trigger) -> bool
    ensures { result ≡ kept_spec.waits_for_change trigger }
{
    match trigger {
        Trigger::Level => false,
        Trigger::Posedge => true,
        Trigger::Negedge => true,
        Trigger::Bothedge => true,
        Trigger::Nonsticky => false,
    }
}

/// Whether an interrupt keeps its last input.
pub fn keeps_last(latch: Latch) -> bool
    ensures { result ≡ kept_spec.keeps_last latch }
{
    match latch {
        Latch::Off => false,
        Latch::Bits(trigger) => waits_for_change(trigger),
        Latch::Whole(trigger) => waits_for_change(trigger),
        Latch::Plain => false,
    }
}
