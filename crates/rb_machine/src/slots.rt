//! What an access does through the slots of its word.
ghost use Rattle.std.specs.Prelude.{◌≡◌, ◌≤◌, ◌<◌, ◌+◌, ◌-◌, ◌*◌, ◌^◌, ℕ, Some, if◌then◌else◌, bit_or, fold, length, slice_get};
ghost use Rattle.rb_base.specs.Bits.{part};
ghost use Rattle.rb_model.specs.declared.kinds.RefItem.TheVariants as item;
ghost use Rattle.rb_model.specs.Items as items;
ghost use Rattle.rb_model.specs.Machine as spec;
ghost use Rattle.rb_model.specs.Sound.{IsSound, WordIsSound};
ghost use Rattle.rb_machine.specs.Scene.{IsEdgeState, mark_at, no_mark, now_in, state_at};
ghost use Rattle.rb_machine.specs.Slots as slots;
ghost use Rattle.rb_machine.specs.Slots.{read_state, touched_by, width_at, write_state, written_by};
ghost use Rattle.rb_model.specs.declared.block.Slot.{Slot};
ghost use Rattle.rb_machine.specs.Table.{values_of};

use crate::scene::{EdgeState, Strobes};
use crate::sight::{FieldState, gated};
use crate::table::{item_value, number_at};
use rb_effects::{acts, after_read, after_write, has_read_effect};
use rb_model::{Block, RefItem, Slot, View, Word};

/// The view of a number.
fn view_at(block: &Block, number: u32) -> &View
    requires { number < length block.now.views }
    ensures { slice_get block.now.views number ≡ Some result.now }
{
    &block.views.items[number as usize]
}

/// The width of the field of a number.
fn width_of(block: &Block, number: u32) -> u8
    requires sound { IsSound block.now }
    requires there { number < length block.now.fields }
    ensures width { result ≡ width_at block.now number }
    ensures small { result ≤ 64 }
{
    block.fields.items[number as usize].width
}

/// The bits of a write's data that a slot takes.
fn slot_bits(slot: Slot, bits: u64) -> u64
    requires some { 0 < slot.bits }
    requires within { slot.low + slot.bits ≤ 32 }
    ensures { result ≡ spec.slot_bits slot bits }
{
    (bits >> slot.low) % (1 << slot.bits)
}

/// The bits of a field's value at their place in a word.
fn placed_bits(slot: Slot, value: u64) -> u64
    requires some { 0 < slot.bits }
    requires within { slot.low + slot.bits ≤ 32 }
    requires in_field { slot.from < 64 }
    ensures { result ≡ part value (slot.from + slot.bits - 1) slot.from * 2 ^ slot.low }
{
    ((value >> slot.from) % (1 << slot.bits)) << slot.low
}

/// The mark of a field, where a read reaches a view of it.
fn read_mark(view: &View, mark: Strobes) -> Strobes
    ensures { (s : Slot) → result ≡ slots.read_mark view.now s mark }
{
    Strobes {
        modified: mark.modified || has_read_effect(view.on_read),
        accessed: mark.accessed || view.reads,
    }
}

/// The mark of a field, where a write reaches a view of it.
fn write_mark(view: &View, mark: Strobes) -> Strobes
    ensures { (s : Slot) → result ≡ slots.write_mark view.now s mark }
{
    Strobes {
        modified: mark.modified || view.writes,
        accessed: mark.accessed || view.writes,
    }
}

/// Marks the fields that a read of a word reaches.
pub(crate) fn mark_read(block: &Block, word: &Word, marks: &mut [Strobes])
    requires sound { IsSound block.now }
    requires word { WordIsSound block.now word.now }
    requires sized { length marks.old ≡ length block.now.fields }
    ensures { (k : ℕ) → mark_at marks.new k ≡ touched_by block.now k slots.read_mark (mark_at marks.old k) word.now.slots }
{
    for slot in &word.slots.items {
        let view = view_at(block, slot.view);
        let number = view.field as usize;
        marks[number] = read_mark(view, marks[number]);
    }
}

/// Marks the fields that a write of a word reaches.
pub(crate) fn mark_write(block: &Block, word: &Word, marks: &mut [Strobes])
    requires sound { IsSound block.now }
    requires word { WordIsSound block.now word.now }
    requires sized { length marks.old ≡ length block.now.fields }
    ensures { (k : ℕ) → mark_at marks.new k ≡ touched_by block.now k slots.write_mark (mark_at marks.old k) word.now.slots }
{
    for slot in &word.slots.items {
        let view = view_at(block, slot.view);
        let number = view.field as usize;
        marks[number] = write_mark(view, marks[number]);
    }
}

/// Takes away the marks of the fields that a word has.
pub(crate) fn unmark(block: &Block, word: &Word, marks: &mut [Strobes])
    requires sound { IsSound block.now }
    requires word { WordIsSound block.now word.now }
    requires sized { length marks.old ≡ length block.now.fields }
    ensures { (k : ℕ) → mark_at marks.new k ≡ touched_by block.now k (λ w s m. no_mark) (mark_at marks.old k) word.now.slots }
{
    for slot in &word.slots.items {
        let view = view_at(block, slot.view);
        marks[view.field as usize] = Strobes {
            modified: false,
            accessed: false,
        };
    }
}

/// Takes over what the fields of a word keep.
pub(crate) fn take_word(
    block: &Block,
    word: &Word,
    states: &[FieldState],
    fields: &mut [FieldState],
)
    requires sound { IsSound block.now }
    requires word { WordIsSound block.now word.now }
    requires room { length states.now ≡ length block.now.fields }
    requires sized { length fields.old ≡ length block.now.fields }
    ensures { (k : ℕ) → state_at fields.new k ≡ touched_by block.now k (λ w s x. state_at states.now w.field) (state_at fields.old k) word.now.slots }
{
    for slot in &word.slots.items {
        let view = view_at(block, slot.view);
        let number = view.field as usize;
        fields[number] = states[number];
    }
}

/// What a slot of a word that is read shows.
fn slot_value(view: &View, slot: Slot, table: &[u64]) -> u64
    requires some { 0 < slot.bits }
    requires within { slot.low + slot.bits ≤ 32 }
    requires in_field { slot.from < 64 }
    ensures { result ≡ (if view.now.reads then part (values_of table.now (item.Field view.now.field)) (slot.from + slot.bits - 1) slot.from * 2 ^ slot.low else 0) }
{
    if view.reads {
        placed_bits(slot, item_value(table, RefItem::Field(view.field)))
    } else {
        0
    }
}

/// What a read of a word is answered.
pub(crate) fn word_value(block: &Block, word: &Word, table: &[u64]) -> u64
    requires sound { IsSound block.now }
    requires word { WordIsSound block.now word.now }
    ensures { result ≡ fold (λ acc s. bit_or acc (spec.slot_value block.now (values_of table.now) s)) 0 word.now.slots }
{
    let mut bits = 0;
    for slot in &word.slots.items {
        bits |= slot_value(view_at(block, slot.view), *slot, table);
    }
    bits
}

/// What a read of a word makes of what the fields keep.
pub(crate) fn read_states(block: &Block, word: &Word, states: &mut [FieldState])
    requires sound { IsSound block.now }
    requires word { WordIsSound block.now word.now }
    requires sized { length states.old ≡ length block.now.fields }
    ensures { (k : ℕ) → state_at states.new k ≡ touched_by block.now k (read_state block.now) (state_at states.old k) word.now.slots }
{
    for slot in &word.slots.items {
        let view = view_at(block, slot.view);
        let width = width_of(block, view.field);
        let state = &mut states[view.field as usize];
        *state = FieldState {
            value: after_read(view.on_read, width, state.value),
            last: state.last,
            done: state.done,
        };
    }
}

/// What a write through a view makes of what a field keeps, where `done` is 1 if the field was written before.
fn written_state(
    view: &View,
    slot: Slot,
    width: u8,
    gate: u64,
    done: u64,
    bits: u64,
    state: FieldState,
) -> FieldState
    requires small { width ≤ 64 }
    requires some { 0 < slot.bits }
    requires within { slot.low + slot.bits ≤ 32 }
    ensures { result ≡ written_by width gate done bits view.now slot state }
{
    let acts = acts(view, gate, done == 1);
    FieldState {
        value: after_write(view, width, acts, state.value, slot_bits(slot, bits)),
        last: state.last,
        done: if view.once && acts { 1 } else { state.done },
    }
}

/// The value at the gate of the view of a number.
fn view_gate(scene: &EdgeState, table: &[u64], number: u32, view: &View) -> u64
    requires scene { IsEdgeState scene.now }
    requires there { slice_get scene.now.block.now.views number ≡ Some view.now }
    ensures { result ≡ spec.view_gate (now_in scene.now items.NoAccess) (values_of table.now) view.now }
{
    let place = scene.plan.gates[number as usize];
    gated(view.gate, number_at(scene.pins, place), table)
}

/// What a write of a word makes of what the fields keep.
pub(crate) fn write_states(
    scene: &EdgeState,
    table: &[u64],
    word: &Word,
    bits: u64,
    states: &mut [FieldState],
)
    requires scene { IsEdgeState scene.now }
    requires word { WordIsSound scene.now.block.now word.now }
    requires sized { length states.old ≡ length scene.now.block.now.fields }
    ensures { (k : ℕ) → state_at states.new k
        ≡ touched_by scene.now.block.now k (write_state scene.now.block.now (now_in scene.now items.NoAccess) (values_of table.now) bits) (state_at states.old k) word.now.slots }
{
    for slot in &word.slots.items {
        let view = view_at(scene.block, slot.view);
        let number = view.field as usize;
        let width = width_of(scene.block, view.field);
        let gate = view_gate(scene, table, slot.view, view);
        let done = scene.held.fields[number].done;
        states[number] = written_state(view, *slot, width, gate, done, bits, states[number]);
    }
}
