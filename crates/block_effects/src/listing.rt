//! The effects of a field, in the order of a manual's sentences.

ghost use Rattle.std.specs.Prelude.{◌≡◌, ◌<◌, ◌≤◌, ◌+◌, ◌++◌, IfOk, OnOk, map};
ghost use Rattle.block_effects.specs.Effects as spec;
ghost use Rattle.block_effects.specs.declared.kinds.Effect.TheVariants as effect;
ghost use Rattle.rb_model.specs.Kept.{when};
ghost use Rattle.rb_model.specs.SoundField.{is_fed as fed, is_wire as wire};

use crate::kinds::Effect;
use rb_base::NoMemory;
use rb_effects::{has_read_effect, is_gated, is_interrupt, is_on, loads, ones};
use rb_model::{Class, Count, Feed, Field, Gate, Level, OnWrite, Part, Shown, Slot, View};
use std::alloc::Global;

fn push_if(into: &mut Vec<Effect>, test: bool, effect: Effect) -> Result<(), NoMemory>
    ensures { OnOk result (into.new.items ≡ into.old.items ++ when test effect) }
{
    if test {
        into.push(effect)?;
    }
    Ok(())
}

fn is_fed(from: Feed) -> bool
    ensures { result ≡ fed from }
{
    match from {
        Feed::Off => false,
        Feed::Pin | Feed::Item(_) => true,
    }
}

fn has_write_effect(on_write: OnWrite) -> bool
    ensures { result ≡ spec.has_write_effect on_write }
{
    match on_write {
        OnWrite::Off => false,
        OnWrite::WoSet
        | OnWrite::WoClr
        | OnWrite::WoT
        | OnWrite::WzS
        | OnWrite::WzC
        | OnWrite::WzT
        | OnWrite::WClr
        | OnWrite::WSet => true,
    }
}

fn is_whole(slot: &Slot, field: &Field) -> bool
    ensures { result ≡ spec.is_whole slot.now field.now }
{
    slot.from == 0 && slot.bits == field.width
}

fn bits_effect(slot: &Slot, field: &Field) -> Effect
    requires some_bit { 0 < slot.now.bits }
    requires in_field { slot.now.from + slot.now.bits ≤ 64 }
    ensures { result ≡ spec.bits_effect slot.now field.now }
{
    Effect::Bits(slot.from + slot.bits - 1, slot.from, field.width)
}

fn push_access(
    into: &mut Vec<Effect>,
    slot: &Slot,
    view: &View,
    field: &Field,
) -> Result<(), NoMemory>
    requires some_bit { 0 < slot.now.bits }
    requires in_field { slot.now.from + slot.now.bits ≤ 64 }
    ensures { OnOk result (into.new.items ≡ into.old.items ++ spec.access_effects slot.now view.now field.now) }
{
    let changes = view.writes && has_write_effect(view.on_write);
    let gated = view.writes && is_gated(view.gate);
    push_if(into, !is_whole(slot, field), bits_effect(slot, field))?;
    push_if(into, view.writes && view.once, Effect::Once)?;
    push_if(into, changes, Effect::Writes(view.on_write))?;
    push_if(
        into,
        has_read_effect(view.on_read),
        Effect::Reads(view.on_read),
    )?;
    push_if(into, gated, Effect::WritesWhile(view.gate))
}

fn push_input(
    into: &mut Vec<Effect>,
    interrupt: bool,
    taken: bool,
    source: Feed,
) -> Result<(), NoMemory>
    ensures { OnOk result (into.new.items ≡ into.old.items ++ spec.input_effects interrupt taken source) }
{
    match source {
        Feed::Off | Feed::Pin => Ok(()),
        Feed::Item(item) if interrupt => {
            into.push(Effect::HasInput(item))?;
            Ok(())
        }
        Feed::Item(item) => push_if(into, taken, Effect::Takes(item)),
    }
}

fn load_effect(gate: Gate) -> Effect
    ensures { result ≡ spec.load_effect gate }
{
    if is_gated(gate) {
        Effect::LoadsWhile(gate)
    } else {
        Effect::Loads
    }
}

fn is_wire(class: Class) -> bool
    ensures { result ≡ wire class }
{
    match class {
        Class::Wire => true,
        Class::Storage | Class::Constant => false,
    }
}

fn is_loaded(field: &Field) -> bool
    ensures { result ≡ spec.is_loaded field.now }
{
    !field.pulse && loads(field)
}

fn push_load(into: &mut Vec<Effect>, field: &Field) -> Result<(), NoMemory>
    ensures { OnOk result (into.new.items ≡ into.old.items ++ spec.load_effects field.now) }
{
    if is_wire(field.class) {
        into.push(Effect::IsWire)?;
        return Ok(());
    }
    push_if(into, is_loaded(field), load_effect(field.gate))
}

fn push_source(into: &mut Vec<Effect>, field: &Field) -> Result<(), NoMemory>
    ensures { OnOk result (into.new.items ≡ into.old.items ++ spec.source_effects field.now) }
{
    let interrupt = is_interrupt(field.latch);
    push_if(into, field.pulse, Effect::Pulse)?;
    push_if(into, interrupt, Effect::Latches(field.latch))?;
    push_input(into, interrupt, loads(field), field.source)?;
    push_load(into, field)
}

fn stop_up(high: Option<Level>) -> Effect
    ensures { result ≡ spec.stop_up high }
{
    match high {
        None => Effect::WrapsUp,
        Some(level) => Effect::StopsUp(level),
    }
}

fn stop_down(low: Option<Level>) -> Effect
    ensures { result ≡ spec.stop_down low }
{
    match low {
        None => Effect::WrapsDown,
        Some(level) => Effect::StopsDown(level),
    }
}

fn push_up(into: &mut Vec<Effect>, up: Option<Part>, high: Option<Level>) -> Result<(), NoMemory>
    ensures { OnOk result (into.new.items ≡ into.old.items ++ spec.up_effects up high) }
{
    if let Some(part) = up {
        into.push(Effect::CountsUp(part))?;
        into.push(stop_up(high))?;
    }
    Ok(())
}

fn push_down(into: &mut Vec<Effect>, down: Option<Part>, low: Option<Level>) -> Result<(), NoMemory>
    ensures { OnOk result (into.new.items ≡ into.old.items ++ spec.down_effects down low) }
{
    if let Some(part) = down {
        into.push(Effect::CountsDown(part))?;
        into.push(stop_down(low))?;
    }
    Ok(())
}

fn is_number(number: u64, level: Level) -> bool
    ensures { result ≡ spec.is_number number level }
{
    match level {
        Level::Number(other) => other == number,
        Level::Item(_) => false,
    }
}

fn push_thresholds(into: &mut Vec<Effect>, width: u8, count: &Count) -> Result<(), NoMemory>
    requires { width ≤ 64 }
    ensures { OnOk result (into.new.items ≡ into.old.items ++ spec.threshold_effects width count.now) }
{
    let greatest = ones(width);
    push_if(
        into,
        !is_number(greatest, count.above),
        Effect::UpperThreshold(count.above),
    )?;
    push_if(
        into,
        !is_number(0, count.below),
        Effect::LowerThreshold(count.below),
    )
}

fn push_count(into: &mut Vec<Effect>, width: u8, count: Option<Count>) -> Result<(), NoMemory>
    requires { width ≤ 64 }
    ensures { OnOk result (into.new.items ≡ into.old.items ++ spec.count_effects width count) }
{
    let Some(count) = count else {
        return Ok(());
    };
    push_up(into, count.up, count.high)?;
    push_down(into, count.down, count.low)?;
    push_thresholds(into, width, &count)
}

fn push_changes(into: &mut Vec<Effect>, field: &Field) -> Result<(), NoMemory>
    ensures { OnOk result (into.new.items ≡ into.old.items ++ spec.change_effects field.now) }
{
    push_if(into, is_fed(field.set), Effect::SetWhile(field.set))?;
    push_if(into, is_fed(field.clear), Effect::ClearedWhile(field.clear))?;
    push_if(into, is_on(field.keep), Effect::Keeps(field.keep))
}

fn interrupt_effect(field: &Field) -> Effect
    ensures { result ≡ spec.interrupt_effect field.now }
{
    if is_on(field.enable) {
        Effect::Interrupts(field.enable)
    } else {
        Effect::AllInterrupt
    }
}

fn is_constant(class: Class) -> bool
    ensures { result ≡ spec.is_constant class }
{
    match class {
        Class::Constant => true,
        Class::Storage | Class::Wire => false,
    }
}

fn push_shown(into: &mut Vec<Effect>, shown: &[Shown]) -> Result<(), NoMemory>
    ensures { OnOk result (into.new.items ≡ into.old.items ++ map effect.Shows shown.now) }
{
    for output in shown {
        into.push(Effect::Shows(*output))?;
    }
    Ok(())
}

fn push_outputs(into: &mut Vec<Effect>, field: &Field) -> Result<(), NoMemory>
    ensures { OnOk result (into.new.items ≡ into.old.items ++ spec.output_effects field.now) }
{
    let interrupt = is_interrupt(field.latch);
    push_if(into, interrupt, interrupt_effect(field))?;
    push_if(
        into,
        interrupt && is_on(field.halt),
        Effect::Halts(field.halt),
    )?;
    push_if(into, field.hw_first, Effect::HardwareFirst)?;
    push_if(into, is_constant(field.class), Effect::IsConstant)?;
    push_shown(into, &field.shown.items)
}

fn push_hardware(into: &mut Vec<Effect>, field: &Field) -> Result<(), NoMemory>
    requires { field.now.width ≤ 64 }
    ensures { OnOk result (into.new.items ≡ into.old.items ++ spec.hardware_effects field.now) }
{
    push_source(into, field)?;
    push_count(into, field.width, field.count)?;
    push_changes(into, field)?;
    push_outputs(into, field)
}

// What hardware does, or whose view it is.
fn push_behind(into: &mut Vec<Effect>, view: &View, field: &Field) -> Result<(), NoMemory>
    requires { field.now.width ≤ 64 }
    ensures { OnOk result (into.new.items ≡ into.old.items ++ spec.behind_effects view.now field.now) }
{
    if view.alias {
        into.push(Effect::ViewOf(view.field))?;
        return Ok(());
    }
    push_hardware(into, field)
}

fn push_reset(into: &mut Vec<Effect>, field: &Field) -> Result<(), NoMemory>
    ensures { OnOk result (into.new.items ≡ into.old.items ++ spec.reset_effects field.now) }
{
    let resets = field.reset.is_some() && field.reset_by.signal.is_some();
    push_if(into, resets, Effect::ResetBy(field.reset_by))
}

/// What these bits of a field do, behind this view. The only error is want of memory.
pub fn effects_of(
    alloc: Global,
    slot: &Slot,
    view: &View,
    field: &Field,
) -> Result<Vec<Effect>, NoMemory>
    requires some_bit { 0 < slot.now.bits }
    requires in_field { slot.now.from + slot.now.bits ≤ 64 }
    requires narrow { field.now.width ≤ 64 }
    ensures { IfOk result (λ r. r.items ≡ spec.effects slot.now view.now field.now) }
{
    let mut effects = Vec::new(alloc);
    push_access(&mut effects, slot, view, field)?;
    push_behind(&mut effects, view, field)?;
    push_reset(&mut effects, field)?;
    Ok(effects)
}
