//! What each register takes.

ghost use Rattle.std.specs.Prelude.{◌≡◌, ◌<◌, ℕ, IfOk, Some, Contains, length, slice_get, if◌then◌else◌};
ghost use Rattle.rtl_net.specs.Net.{Grows, Stands};
ghost use Rattle.rb_model.specs.declared.block.Field.{Field};
ghost use Rattle.rb_model.specs.Kept.{Map, register_width, field_kept};
ghost use Rattle.rb_model.specs.Machine.{moved};
ghost use Rattle.block_plan.specs.Kept.{kept_seen};
ghost use Rattle.gen_scene.specs.Bases.{kept_number, kept_reset, kept_width};
ghost use Rattle.gen_scene.specs.Worth.{IsWorth};
ghost use Rattle.gen_clock.specs.Edges as spec;

use block_plan::KeptValue;
use gen_scene::Scene;
use net_gates::{choose, number, present};
use rb_base::NoMemory;
use rb_model::{Block, Field};
use rtl_net::{Id, Netlist};
use std::alloc::Global;

/// The number of the field of a kept value.
fn number_of(kept: KeptValue) -> usize
    ensures { kept_number (kept_seen kept) ≡ Some result }
{
    match kept {
        KeptValue::Val(number) => number as usize,
        KeptValue::Last(number) => number as usize,
        KeptValue::Done(number) => number as usize,
    }
}

/// What a reset leaves of a kept value, if it changes it.
fn reset_value(kept: KeptValue, field: &Field) -> Option<u64>
    ensures { result ≡ kept_reset (kept_seen kept) field.now }
{
    match kept {
        KeptValue::Val(_) => field.reset,
        KeptValue::Last(_) => Some(0),
        KeptValue::Done(_) => Some(0),
    }
}

/// The width of a kept value.
fn width_of(kept: KeptValue, field: &Field) -> u8
    ensures { result ≡ kept_width (kept_seen kept) field.now }
{
    match kept {
        KeptValue::Val(_) => field.width,
        KeptValue::Last(_) => field.width,
        KeptValue::Done(_) => 1,
    }
}

/// The field of a number.
fn field_at(block: &Block, number: usize) -> &Field
    requires { number < length block.now.fields }
    ensures { slice_get block.now.fields number ≡ Some result.now }
{
    &block.fields.items[number]
}

/// What a register takes, but for resets.
fn taken(
    net: &mut Netlist,
    scene: &Scene,
    kept: KeptValue,
    values: &[Id],
    used: &[Id],
) -> Result<Id, NoMemory>
    requires scene { spec.IsScene net.old scene.now }
    requires kept { spec.IsKeptBy scene.now.base.now.block.now (kept_seen kept) }
    requires values { spec.AreMoved scene.now.base.now.block.now scene.now.base.now.inlet net.old values.now }
    requires used { spec.AreUsed scene.now.base.now.block.now scene.now.base.now.inlet net.old used.now }
    ensures older { Grows net.old net.new }
    ensures name { net.new.name ≡ net.old.name }
    ensures worth { IfOk result (λ id. (f : Field) → slice_get scene.now.base.now.block.now.fields (spec.number_in (kept_seen kept)) ≡ Some f
        → IsWorth scene.now.base.now.block.now scene.now.base.now.inlet net.new id (kept_width (kept_seen kept) f) (λ n v. moved scene.now.base.now.block.now n v (kept_seen kept))) }
{
    let block = scene.base.block;
    match kept {
        KeptValue::Val(number) => Ok(values[number as usize]),
        KeptValue::Last(number) => {
            let field = field_at(block, number as usize);
            let id = present(net, scene.source(number as usize, field), field.width)?;
            Ok(id)
        }
        KeptValue::Done(number) => Ok(used[number as usize]),
    }
}

/// What a register takes where a synchronous reset has acted on a value.
#[tactic(auto, using(rtl_net::proofs::Nets::building))]
fn reset_in(
    net: &mut Netlist,
    scene: &Scene,
    kept: KeptValue,
    field: &Field,
    id: Id,
) -> Result<Id, NoMemory>
    requires scene { spec.IsScene net.old scene.now }
    requires kept { spec.IsKeptBy scene.now.base.now.block.now (kept_seen kept) }
    requires field { slice_get scene.now.base.now.block.now.fields (spec.number_in (kept_seen kept)) ≡ Some field.now }
    requires stands { Stands net.old id (kept_width (kept_seen kept) field.now) }
    ensures older { Grows net.old net.new }
    ensures name { net.new.name ≡ net.old.name }
    ensures reset { IfOk result (λ new. spec.IsReset scene.now.base.now.block.now scene.now.base.now.inlet net.old net.new (kept_seen kept) field.now id new) }
{
    if !field.reset_by.sync {
        return Ok(id);
    }
    let Some(value) = reset_value(kept, field) else {
        return Ok(id);
    };
    let asserted = scene.base.asserted(net, number_of(kept))?;
    let left = number(net, width_of(kept, field), u128::from(value))?;
    let new = choose(net, asserted, left, id)?;
    Ok(new)
}

/// What the register of a kept value takes.
#[tactic(auto, using(rtl_net::proofs::Nets::building))]
fn next(
    net: &mut Netlist,
    scene: &Scene,
    kept: KeptValue,
    values: &[Id],
    used: &[Id],
) -> Result<Id, NoMemory>
    requires scene { spec.IsScene net.old scene.now }
    requires kept { Contains (field_kept scene.now.base.now.block.now) (kept_seen kept) }
    requires values { spec.AreMoved scene.now.base.now.block.now scene.now.base.now.inlet net.old values.now }
    requires used { spec.AreUsed scene.now.base.now.block.now scene.now.base.now.inlet net.old used.now }
    ensures older { Grows net.old net.new }
    ensures name { net.new.name ≡ net.old.name }
    ensures worth { IfOk result (λ id. IsWorth scene.now.base.now.block.now scene.now.base.now.inlet net.new id (register_width scene.now.base.now.block.now (kept_seen kept))
        (λ n v. spec.to_take scene.now.base.now.block.now n v (kept_seen kept))) }
{
    let field = field_at(scene.base.block, number_of(kept));
    let value = taken(net, scene, kept, values, used)?;
    let id = reset_in(net, scene, kept, field, value)?;
    Ok(id)
}

/// What the registers take, in the order of what the fields keep: what the fields have next, where synchronous resets have acted.
/// The only error is want of memory, after which the netlist has some of the nodes.
pub fn next_nodes(
    alloc: Global,
    net: &mut Netlist,
    scene: &Scene,
    values: &[Id],
    used: &[Id],
) -> Result<Vec<Id>, NoMemory>
    requires scene { spec.IsScene net.old scene.now }
    requires values { spec.AreMoved scene.now.base.now.block.now scene.now.base.now.inlet net.old values.now }
    requires used { spec.AreUsed scene.now.base.now.block.now scene.now.base.now.inlet net.old used.now }
    ensures older { Grows net.old net.new }
    ensures name { net.new.name ≡ net.old.name }
    ensures nexts { IfOk result (λ ids. spec.AreNexts scene.now.base.now.block.now scene.now.base.now.inlet net.new ids.items) }
{
    let mut nexts = Vec::new(alloc);
    for kept in &scene.base.plan.kept.all {
        nexts.push(next(net, scene, *kept, values, used)?)?;
    }
    Ok(nexts)
}
