//! What the fields keep after an edge, and what the access is answered.
ghost use Rattle.std.specs.Prelude.{◌≡◌, ◌<◌, ℕ, false, Some, if◌then◌else◌, length, slice_get};
ghost use Rattle.rb_model.specs.declared.block.Field.{Field};
ghost use Rattle.rb_model.specs.Items.{ItemValues, NoAccess};
ghost use Rattle.rb_model.specs.Machine as spec;
ghost use Rattle.rb_model.specs.Run.{pins_of};
ghost use Rattle.rb_model.specs.Sound.{IsSound};
ghost use Rattle.rb_machine.specs.Keeping.{AreMarksOf};
ghost use Rattle.rb_machine.specs.Moves.{begun_state, next_state, started_state};
ghost use Rattle.rb_machine.specs.Quiet.{begins, rests};
ghost use Rattle.rb_machine.specs.Scene.{AreStrobes, IsEdgeState, no_mark, now_in, mark_at, state_at};
ghost use Rattle.rb_machine.specs.Slots.{access_state};
ghost use Rattle.rb_machine.specs.Table.{values_of};
ghost use Rattle.rb_machine.specs.Transfers.{IsThere, access_seen};

use crate::bus::Access;
use crate::plain::take_steps;
use crate::reset::{is_asserted, kept_state, reset_state};
use crate::scene::{EdgeState, Strobes};
use crate::sight::FieldState;
use crate::slots::{mark_read, mark_write, read_states, unmark, word_value, write_states};
use rb_model::{Block, Field};

/// Takes the marks of an access away.
fn unmark_access(block: &Block, access: Access, marks: &mut [Strobes])
    requires sound { IsSound block.now }
    requires there { IsThere block.now access }
    requires sized { length marks.old ≡ length block.now.fields }
    requires marks { AreMarksOf block.now (access_seen access) marks.old }
    ensures { (k : ℕ) → mark_at marks.new k ≡ no_mark }
{
    match access {
        Access::Off => (),
        Access::Read(number) => unmark(block, &block.reads.items[number], marks),
        Access::Write(number, _) => unmark(block, &block.writes.items[number], marks),
    }
}

/// Marks the fields that an access reaches, where the marks are those of the last access.
pub(crate) fn mark_access(block: &Block, last: Access, access: Access, marks: &mut [Strobes])
    requires sound { IsSound block.now }
    requires last { IsThere block.now last }
    requires there { IsThere block.now access }
    requires sized { length marks.old ≡ length block.now.fields }
    requires marks { AreMarksOf block.now (access_seen last) marks.old }
    ensures strobes { AreStrobes block.now (access_seen access) marks.new }
    ensures marks { AreMarksOf block.now (access_seen access) marks.new }
{
    unmark_access(block, last, marks);
    match access {
        Access::Off => (),
        Access::Read(number) => mark_read(block, &block.reads.items[number], marks),
        Access::Write(number, _) => mark_write(block, &block.writes.items[number], marks),
    }
}

/// What an access is answered.
pub(crate) fn answer(block: &Block, table: &[u64], access: Access) -> u64
    requires sound { IsSound block.now }
    requires there { IsThere block.now access }
    ensures { result ≡ spec.read_data block.now (values_of table.now) (access_seen access) }
{
    match access {
        Access::Off => 0,
        Access::Read(number) => word_value(block, &block.reads.items[number], table),
        Access::Write(_, _) => 0,
    }
}

/// What software makes of what the fields keep.
fn software(scene: &EdgeState, table: &[u64], access: Access, states: &mut [FieldState])
    requires scene { IsEdgeState scene.now }
    requires there { IsThere scene.now.block.now access }
    requires sized { length states.old ≡ length scene.now.block.now.fields }
    ensures { (k : ℕ) → state_at states.new k
        ≡ access_state scene.now.block.now (now_in scene.now NoAccess) (values_of table.now) (access_seen access) k (state_at states.old k) }
{
    let block = scene.block;
    match access {
        Access::Off => (),
        Access::Read(number) => read_states(block, &block.reads.items[number], states),
        Access::Write(number, bits) => {
            write_states(scene, table, &block.writes.items[number], bits, states)
        }
    }
}

/// What the field of a number has before software: its value, or what hardware makes of it where software comes last.
fn started(scene: &EdgeState, table: &[u64], number: usize) -> FieldState
    requires scene { IsEdgeState scene.now }
    ensures { (f : Field) → slice_get scene.now.block.now.fields number ≡ Some f
        → result ≡ started_state (now_in scene.now NoAccess) (values_of table.now) number f (state_at scene.now.held.now.fields.items number) }
{
    match scene.at(table, number) {
        None => FieldState {
            value: 0,
            last: 0,
            done: 0,
        },
        Some(at) => at.started(),
    }
}

/// Whether a field is under reset.
fn is_under_reset(scene: &EdgeState, field: &Field) -> bool
    requires scene { IsEdgeState scene.now }
    ensures { (k : ℕ) → slice_get scene.now.block.now.fields k ≡ Some field.now
        → result ≡ spec.is_asserted scene.now.block.now (pins_of scene.now.block.now scene.now.pins.now) field.now.reset_by }
{
    if !scene.is_reset {
        return false;
    }
    is_asserted(scene.block, scene.plan, scene.pins, field.reset_by)
}

/// What the field of a number keeps after the edge, of what software left.
fn next(scene: &EdgeState, table: &[u64], number: usize, state: FieldState) -> FieldState
    requires scene { IsEdgeState scene.now }
    ensures { (f : Field) → slice_get scene.now.block.now.fields number ≡ Some f
        → result ≡ next_state scene.now.block.now (now_in scene.now NoAccess) (values_of table.now) number f state }
{
    match scene.at(table, number) {
        None => state,
        Some(at) => {
            let asserted = is_under_reset(scene, at.field);
            kept_state(at.field, reset_state(at.field, asserted, at.ended(state)))
        }
    }
}

/// What each field has before software. One that rests has what it held.
fn start(scene: &EdgeState, table: &[u64], states: &mut [FieldState])
    requires scene { IsEdgeState scene.now }
    requires sized { length states.old ≡ length scene.now.block.now.fields }
    ensures { (k : ℕ) (f : Field) → slice_get scene.now.block.now.fields k ≡ Some f
        → state_at states.new k ≡ (if rests scene.now.is_reset f then state_at states.old k
        else started_state (now_in scene.now NoAccess) (values_of table.now) k f (state_at scene.now.held.now.fields.items k)) }
{
    let mut number = scene.awake_from(0);
    while number < states.len() {
        states[number] = started(scene, table, number);
        number = scene.awake_from(number + 1);
    }
}

/// What each field has before software of which one pin tells it. Under reset this is left to what looks at all of the field.
fn begin(scene: &EdgeState, states: &mut [FieldState])
    requires scene { IsEdgeState scene.now }
    requires sized { length states.old ≡ length scene.now.block.now.fields }
    ensures { (v : ItemValues) (k : ℕ) (f : Field) → slice_get scene.now.block.now.fields k ≡ Some f
        → state_at states.new k ≡ (if begins scene.now.is_reset f then begun_state (now_in scene.now NoAccess) v k f (state_at states.old k)
        else state_at states.old k) }
{
    if scene.is_reset {
        return;
    }
    take_steps(scene.pins, scene.steps, states);
}

/// What each field keeps after the edge, of what software left. One that rests keeps all of it.
fn finish(scene: &EdgeState, table: &[u64], states: &mut [FieldState])
    requires scene { IsEdgeState scene.now }
    requires sized { length states.old ≡ length scene.now.block.now.fields }
    ensures { (k : ℕ) (f : Field) → slice_get scene.now.block.now.fields k ≡ Some f
        → state_at states.new k ≡ (if rests scene.now.is_reset f then state_at states.old k
        else next_state scene.now.block.now (now_in scene.now NoAccess) (values_of table.now) k f (state_at states.old k)) }
{
    let mut number = scene.awake_from(0);
    while number < states.len() {
        states[number] = next(scene, table, number, states[number]);
        number = scene.awake_from(number + 1);
    }
}

/// What each field keeps after the edge. Where no field is under reset, `states` comes with what the fields hold.
pub(crate) fn move_fields(
    scene: &EdgeState,
    table: &[u64],
    access: Access,
    states: &mut [FieldState],
)
    requires scene { IsEdgeState scene.now }
    requires there { IsThere scene.now.block.now access }
    requires sized { length states.old ≡ length scene.now.block.now.fields }
    requires held { scene.now.is_reset ≡ false → states.old ≡ scene.now.held.now.fields.items }
    ensures { (k : ℕ) (f : Field) → slice_get scene.now.block.now.fields k ≡ Some f → state_at states.new k
        ≡ next_state scene.now.block.now (now_in scene.now NoAccess) (values_of table.now) k f
        (access_state scene.now.block.now (now_in scene.now NoAccess) (values_of table.now) (access_seen access) k
        (started_state (now_in scene.now NoAccess) (values_of table.now) k f (state_at scene.now.held.now.fields.items k))) }
{
    start(scene, table, states);
    begin(scene, states);
    software(scene, table, access, states);
    finish(scene, table, states);
}
