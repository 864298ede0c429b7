//! Of which fields an edge may change what they keep, and what is taken over of it.
ghost use Rattle.std.specs.Prelude.{◌≡◌, ◌<◌, ℕ, true, false, Contains, IfOk, length};
ghost use Rattle.rb_model.specs.Sound.{IsSound};
ghost use Rattle.rb_machine.specs.Keeping.{AreMoving, IsStill, is_reached};
ghost use Rattle.rb_machine.specs.Scene.{state_at};
ghost use Rattle.rb_machine.specs.Transfers.{IsThere, access_seen};

use crate::bus::Access;
use crate::quiet::is_quiet;
use crate::sight::FieldState;
use crate::slots::take_word;
use rb_base::NoMemory;
use rb_model::{Block, Field};
use std::alloc::Global;

/// The places of the fields that aren't quiet.
pub(crate) fn moving_places(alloc: Global, fields: &[Field]) -> Result<Vec<usize>, NoMemory>
    ensures { IfOk result (λ all. AreMoving fields.now all.items) }
{
    let mut all = Vec::new(alloc);
    for (number, field) in fields.iter().enumerate() {
        if is_quiet(field) {
            continue;
        }
        all.push(number)?;
    }
    Ok(all)
}

/// Takes over what is kept at these places.
fn take_places(places: &[usize], states: &[FieldState], fields: &mut [FieldState])
    requires sized { length fields.old ≡ length states.now }
    requires there { (k : ℕ) → Contains places.now k → k < length states.now }
    ensures taken { (k : ℕ) → Contains places.now k → state_at fields.new k ≡ state_at states.now k }
    ensures same { (k : ℕ) → state_at fields.old k ≡ state_at states.now k → state_at fields.new k ≡ state_at states.now k }
{
    for place in places {
        let number = *place;
        fields[number] = states[number];
    }
}

/// Takes over what the fields keep that an access reaches.
fn take_access(block: &Block, access: Access, states: &[FieldState], fields: &mut [FieldState])
    requires sound { IsSound block.now }
    requires there { IsThere block.now access }
    requires room { length states.now ≡ length block.now.fields }
    requires sized { length fields.old ≡ length block.now.fields }
    ensures taken { (k : ℕ) → is_reached block.now (access_seen access) k ≡ true → state_at fields.new k ≡ state_at states.now k }
    ensures same { (k : ℕ) → is_reached block.now (access_seen access) k ≡ false → state_at fields.new k ≡ state_at fields.old k }
{
    match access {
        Access::Off => (),
        Access::Read(number) => take_word(block, &block.reads.items[number], states, fields),
        Access::Write(number, _) => take_word(block, &block.writes.items[number], states, fields),
    }
}

/// Takes over what the fields keep after an edge: all of it where some field is under reset, and else that of the fields that aren't quiet
/// and of those that the access reaches.
pub(crate) fn take_fields(
    block: &Block,
    moving: &[usize],
    access: Access,
    is_reset: bool,
    states: &[FieldState],
    fields: &mut [FieldState],
)
    requires sound { IsSound block.now }
    requires there { IsThere block.now access }
    requires moving { AreMoving block.now.fields moving.now }
    requires room { length states.now ≡ length block.now.fields }
    requires sized { length fields.old ≡ length block.now.fields }
    requires still { is_reset ≡ false → IsStill block.now (access_seen access) fields.old states.now }
    ensures { fields.new ≡ states.now }
{
    if is_reset {
        fields.copy_from_slice(states);
        return;
    }
    take_places(moving, states, fields);
    take_access(block, access, states, fields);
}
