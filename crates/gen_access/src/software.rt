//! What an access makes of the fields, slot by slot.

ghost use Rattle.std.specs.Prelude.{◌≡◌, ◌<◌, ℕ, IfOk, OnOk, Some, length, slice_get, fold, IsTrue, ◌==◌, if◌then◌else◌};
ghost use Rattle.rtl_net.specs.Value.{At, bit_of};
ghost use Rattle.rtl_net.specs.Net.{Grows, IsNode, Has, Stands, width_in};
ghost use Rattle.rb_model.specs.Effects as effects;
ghost use Rattle.rb_model.specs.declared.block.Field.{Field};
ghost use Rattle.rb_model.specs.Items.{Now, ItemValues};
ghost use Rattle.rb_model.specs.Sound.{WordIsSound, view_passes};
ghost use Rattle.gen_scene.specs.Worth.{IsWorth};
ghost use Rattle.gen_access.specs.Tables.{AreNodes, Changes, HasViews};
ghost use Rattle.gen_access.specs.Words.{AreHitsOf, SlotFits, below, is_at, passes_some};
ghost use Rattle.gen_access.specs.Effects as spec;

use gen_fields::{SoftHit, acting, software};
use gen_scene::Scene;
use net_gates::{choose, either, full, slice, zero};
use rb_base::NoMemory;
use rb_model::{Block, OnRead, Slot, View, Word};
use rtl_net::{Id, Netlist};

/// What an access makes of a field: a write of its value, a read of its value, or the end of its being writable once.
#[derive(Clone, Copy, Debug, PartialEq, Eq)]
pub enum Effect {
    Written,
    Read,
    Used,
}

/// The words through which software has an effect.
fn words(block: &Block, effect: Effect) -> &[Word]
    ensures { result.now ≡ spec.words_of block.now effect }
{
    match effect {
        Effect::Written => &block.writes.items,
        Effect::Read => &block.reads.items,
        Effect::Used => &block.writes.items,
    }
}

/// The view of a number.
pub(crate) fn view_at(block: &Block, number: u32) -> &View
    requires { number < length block.now.views }
    ensures { slice_get block.now.views number ≡ Some result.now }
{
    &block.views.items[number as usize]
}

/// What a write through a slot makes of a value.
#[tactic(auto, using(rtl_net::proofs::Nets::building))]
fn written(
    net: &mut Netlist,
    scene: &Scene,
    slot: Slot,
    view: &View,
    hit: Id,
    v: Id,
) -> Result<Id, NoMemory>
    requires views { HasViews net.old scene.now }
    requires slot { SlotFits scene.now.base.now.block.now slot }
    requires view { slice_get scene.now.base.now.block.now.views slot.view ≡ Some view.now }
    requires hit { Stands net.old hit 1 }
    requires v { (f : Field) → slice_get scene.now.base.now.block.now.fields view.now.field ≡ Some f → Stands net.old v f.width }
    ensures older { Grows net.old net.new }
    ensures name { net.new.name ≡ net.old.name }
    ensures worth { IfOk result (λ id. spec.IsPut scene.now.base.now.block.now scene.now.base.now.inlet net.old net.new Effect.Written slot view.now.field hit v id) }
{
    if !view.writes {
        return Ok(v);
    }
    let bits = slice(
        net,
        scene.base.inlet.bits,
        slot.low + (slot.bits - 1),
        slot.low,
    )?;
    let read = zero(net, 1)?;
    let soft = SoftHit {
        write: hit,
        read,
        bits,
        gate: scene.view_gate(slot.view as usize, view),
        done: scene.base.done(view.field as usize),
    };
    let id = software(net, view, v, &soft)?;
    Ok(id)
}

/// What a read makes of a value, where there is one (9.6, onread).
#[tactic(auto, using(rtl_net::proofs::Nets::building))]
fn after_read(net: &mut Netlist, on_read: OnRead, hit: Id, v: Id) -> Result<Id, NoMemory>
    requires v { Has net.old v }
    requires hit { Stands net.old hit 1 }
    ensures older { Grows net.old net.new }
    ensures name { net.new.name ≡ net.old.name }
    ensures node { IfOk result (λ id. IsNode net.new id (width_in net.old v) (λ x.
        if x.node hit.0 == 1 then effects.after_read on_read (width_in net.old v) (x.node v.0) else x.node v.0)) }
{
    let width = net.width(v);
    match on_read {
        OnRead::Off => Ok(v),
        OnRead::RClr => {
            let zeros = zero(net, width)?;
            let id = choose(net, hit, zeros, v)?;
            Ok(id)
        }
        OnRead::RSet => {
            let ones = full(net, width)?;
            let id = choose(net, hit, ones, v)?;
            Ok(id)
        }
    }
}

/// Whether a field that may be written once was written, after a write through a slot.
#[tactic(auto, using(rtl_net::proofs::Nets::building))]
fn used(
    net: &mut Netlist,
    scene: &Scene,
    slot: Slot,
    view: &View,
    hit: Id,
    v: Id,
) -> Result<Id, NoMemory>
    requires views { HasViews net.old scene.now }
    requires slot { SlotFits scene.now.base.now.block.now slot }
    requires view { slice_get scene.now.base.now.block.now.views slot.view ≡ Some view.now }
    requires hit { Stands net.old hit 1 }
    requires v { Stands net.old v 1 }
    ensures older { Grows net.old net.new }
    ensures name { net.new.name ≡ net.old.name }
    ensures worth { IfOk result (λ id. spec.IsPut scene.now.base.now.block.now scene.now.base.now.inlet net.old net.new Effect.Used slot view.now.field hit v id) }
{
    if !view.once {
        return Ok(v);
    }
    let soft = SoftHit {
        write: hit,
        read: hit,
        bits: hit,
        gate: scene.view_gate(slot.view as usize, view),
        done: scene.base.done(view.field as usize),
    };
    let acts = acting(net, view, &soft)?;
    let id = either(net, acts, v)?;
    Ok(id)
}

/// What an effect through a slot makes of a node of its field.
#[tactic(auto, using(rtl_net::proofs::Nets::building))]
fn put(
    net: &mut Netlist,
    scene: &Scene,
    effect: Effect,
    slot: Slot,
    view: &View,
    hit: Id,
    v: Id,
) -> Result<Id, NoMemory>
    requires views { HasViews net.old scene.now }
    requires slot { SlotFits scene.now.base.now.block.now slot }
    requires view { slice_get scene.now.base.now.block.now.views slot.view ≡ Some view.now }
    requires hit { Stands net.old hit 1 }
    requires v { (f : Field) → slice_get scene.now.base.now.block.now.fields view.now.field ≡ Some f → Stands net.old v (spec.width_of effect f) }
    ensures older { Grows net.old net.new }
    ensures name { net.new.name ≡ net.old.name }
    ensures worth { IfOk result (λ id. spec.IsPut scene.now.base.now.block.now scene.now.base.now.inlet net.old net.new effect slot view.now.field hit v id) }
{
    match effect {
        Effect::Written => written(net, scene, slot, view, hit, v),
        Effect::Read => {
            let id = after_read(net, view.on_read, hit, v)?;
            Ok(id)
        }
        Effect::Used => used(net, scene, slot, view, hit, v),
    }
}

/// Puts an effect through a slot behind what the table has of each field.
fn put_slot(
    net: &mut Netlist,
    scene: &Scene,
    effect: Effect,
    slot: Slot,
    hit: Id,
    table: &mut [Id],
) -> Result<(), NoMemory>
    requires views { HasViews net.old scene.now }
    requires slot { SlotFits scene.now.base.now.block.now slot }
    requires hit { Stands net.old hit 1 }
    requires table { AreNodes scene.now.base.now.block.now net.old table.old (spec.width_of effect) }
    ensures older { Grows net.old net.new }
    ensures name { net.new.name ≡ net.old.name }
    ensures table { OnOk result (AreNodes scene.now.base.now.block.now net.new table.new (spec.width_of effect)) }
    ensures changes { OnOk result ((j : ℕ) → (IsTrue (view_passes scene.now.base.now.block.now (spec.has_effect effect) slot)
        → IsWorth scene.now.base.now.block.now scene.now.base.now.inlet net.old hit 1 (λ n v. bit_of (is_at j (spec.reached_by effect n.access))))
        → Changes scene.now.base.now.block.now scene.now.base.now.inlet net.old net.new table.old table.new (spec.width_of effect)
        (λ n v k f x. if is_at j (spec.reached_by effect n.access) then spec.slot_effect scene.now.base.now.block.now effect n v k f x slot else x)) }
{
    let view = view_at(scene.base.block, slot.view);
    let number = view.field as usize;
    let id = put(net, scene, effect, slot, view, hit, table[number])?;
    table[number] = id;
    Ok(())
}

/// Puts an effect through a word's slots, in turn, behind what the table has of each field.
fn put_word(
    net: &mut Netlist,
    scene: &Scene,
    effect: Effect,
    word: &Word,
    hit: Id,
    table: &mut [Id],
) -> Result<(), NoMemory>
    requires views { HasViews net.old scene.now }
    requires word { WordIsSound scene.now.base.now.block.now word.now }
    requires hit { Stands net.old hit 1 }
    requires table { AreNodes scene.now.base.now.block.now net.old table.old (spec.width_of effect) }
    ensures older { Grows net.old net.new }
    ensures name { net.new.name ≡ net.old.name }
    ensures table { OnOk result (AreNodes scene.now.base.now.block.now net.new table.new (spec.width_of effect)) }
    ensures changes { OnOk result ((j : ℕ) → (IsTrue (passes_some scene.now.base.now.block.now (spec.has_effect effect) word.now.slots)
        → IsWorth scene.now.base.now.block.now scene.now.base.now.inlet net.old hit 1 (λ n v. bit_of (is_at j (spec.reached_by effect n.access))))
        → Changes scene.now.base.now.block.now scene.now.base.now.inlet net.old net.new table.old table.new (spec.width_of effect)
        (λ n v k f x. if is_at j (spec.reached_by effect n.access) then fold (spec.slot_effect scene.now.base.now.block.now effect n v k f) x word.now.slots else x)) }
{
    for slot in &word.slots.items {
        put_slot(net, scene, effect, *slot, hit, table)?;
    }
    Ok(())
}

/// Puts an effect of software behind what the table has of each field. `hits` says of each word of the effect whether the access
/// reaches it, if it does something there. The only error is want of memory, after which the netlist has some of the nodes.
pub fn software_nodes(
    net: &mut Netlist,
    scene: &Scene,
    effect: Effect,
    hits: &[Id],
    table: &mut [Id],
) -> Result<(), NoMemory>
    requires views { HasViews net.old scene.now }
    requires hits { AreHitsOf scene.now.base.now.block.now scene.now.base.now.inlet net.old (spec.words_of scene.now.base.now.block.now effect) (spec.reached_by effect) (spec.ways_of effect) hits.now }
    requires table { AreNodes scene.now.base.now.block.now net.old table.old (spec.width_of effect) }
    ensures older { Grows net.old net.new }
    ensures name { net.new.name ≡ net.old.name }
    ensures table { OnOk result (AreNodes scene.now.base.now.block.now net.new table.new (spec.width_of effect)) }
    ensures changes { OnOk result (Changes scene.now.base.now.block.now scene.now.base.now.inlet net.old net.new table.old table.new (spec.width_of effect)
        (below (spec.words_of scene.now.base.now.block.now effect) (spec.reached_by effect) (spec.slot_effect scene.now.base.now.block.now effect)
        (length (spec.words_of scene.now.base.now.block.now effect)))) }
{
    for (number, word) in words(scene.base.block, effect).iter().enumerate() {
        put_word(net, scene, effect, word, hits[number], table)?;
    }
    Ok(())
}
