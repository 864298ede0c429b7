//! The steps of hardware on one field, in the order in which they apply.

ghost use Rattle.std.specs.Prelude.{◌≡◌, ◌++◌, ℕ, IfOk, codes};
ghost use Rattle.rtl_net.specs.Net.{Grows, Stands};
ghost use Rattle.rb_model.specs.Effects as effects;
ghost use Rattle.rb_model.specs.Items as values;
ghost use Rattle.rb_model.specs.Kept.{Last};
ghost use Rattle.rb_model.specs.Machine as machine;
ghost use Rattle.gen_scene.specs.Fields.{HasField, high_value, low_value};
ghost use Rattle.gen_scene.specs.Worth.{IsWorth};
ghost use Rattle.gen_clock.specs.Moves.{IsFinished, IsMade};

use gen_events::{counted, latch};
use gen_fields::{FinishIds, LoadIds, finish, load};
use gen_scene::Scene;
use net_gates::present;
use rb_base::NoMemory;
use rb_effects::is_latching;
use rb_model::Field;
use rtl_net::{Id, Netlist};

/// The value after the load of a number.
fn loaded(
    net: &mut Netlist,
    scene: &Scene,
    number: usize,
    field: &Field,
    v: Id,
) -> Result<Id, NoMemory>
    requires field { HasField net.old scene.now number field.now }
    requires v { Stands net.old v field.now.width }
    ensures older { Grows net.old net.new }
    ensures name { net.new.name ≡ net.old.name }
    ensures made { IfOk result (λ id. IsMade scene.now.base.now.block.now scene.now.base.now.inlet net.old net.new v id field.now.width
        (λ n u x. effects.loaded field.now x (values.source_value n u field.now) (values.gated n u field.now.gate (codes "we$") (codes "wel$") field.now.path))) }
{
    let from = LoadIds {
        from: scene.source(number, field),
        gate: scene.gate(number, field),
    };
    let id = load(net, field, v, &from)?;
    Ok(id)
}

/// The value after a count by these numbers.
#[tactic(auto, using(rtl_net::proofs::Nets::building))]
fn counted_by(
    net: &mut Netlist,
    scene: &Scene,
    number: usize,
    field: &Field,
    v: Id,
    parts: (Id, Id),
) -> Result<Id, NoMemory>
    requires field { HasField net.old scene.now number field.now }
    requires v { Stands net.old v field.now.width }
    requires up { IsWorth scene.now.base.now.block.now scene.now.base.now.inlet net.old parts.0 field.now.width (λ n u. values.up n u field.now) }
    requires down { IsWorth scene.now.base.now.block.now scene.now.base.now.inlet net.old parts.1 field.now.width (λ n u. values.down n u field.now) }
    ensures older { Grows net.old net.new }
    ensures name { net.new.name ≡ net.old.name }
    ensures made { IfOk result (λ id. IsMade scene.now.base.now.block.now scene.now.base.now.inlet net.old net.new v id field.now.width
        (λ n u x. effects.counted field.now.width x (values.up n u field.now) (values.down n u field.now) (high_value u field.now) (low_value u field.now))) }
{
    let (up, down) = parts;
    let high = scene.high(net, number, field)?;
    let low = scene.low(net, number, field)?;
    let id = counted(net, v, up, down, high, low)?;
    Ok(id)
}

/// The value after a count, if the field is a counter.
#[tactic(auto, using(rtl_net::proofs::Nets::building))]
fn stepped(
    net: &mut Netlist,
    scene: &Scene,
    number: usize,
    field: &Field,
    v: Id,
) -> Result<Id, NoMemory>
    requires field { HasField net.old scene.now number field.now }
    requires v { Stands net.old v field.now.width }
    ensures older { Grows net.old net.new }
    ensures name { net.new.name ≡ net.old.name }
    ensures made { IfOk result (λ id. IsMade scene.now.base.now.block.now scene.now.base.now.inlet net.old net.new v id field.now.width
        (λ n u x. machine.counts n u field.now x)) }
{
    if field.count.is_none() {
        return Ok(v);
    }
    let up = scene.up(net, number, field)?;
    let down = scene.down(net, number, field)?;
    let id = counted_by(net, scene, number, field, v, (up, down))?;
    Ok(id)
}

/// The value after the latch of events, if the field is an interrupt that keeps them.
#[tactic(auto, using(rtl_net::proofs::Nets::building))]
fn latched(
    net: &mut Netlist,
    scene: &Scene,
    number: usize,
    field: &Field,
    v: Id,
) -> Result<Id, NoMemory>
    requires field { HasField net.old scene.now number field.now }
    requires v { Stands net.old v field.now.width }
    ensures older { Grows net.old net.new }
    ensures name { net.new.name ≡ net.old.name }
    ensures made { IfOk result (λ id. IsMade scene.now.base.now.block.now scene.now.base.now.inlet net.old net.new v id field.now.width
        (λ n u x. effects.latched field.now.latch field.now.width x (values.source_value n u field.now) (n.kept (Last number)))) }
{
    if !is_latching(field.latch) {
        return Ok(v);
    }
    let pin = present(net, scene.source(number, field), field.width)?;
    let id = latch(net, field.latch, v, pin, scene.base.last(number))?;
    Ok(id)
}

/// The value after hwset, hwclr, and hwenable or hwmask, which keeps bits of `old`.
fn finished(
    net: &mut Netlist,
    scene: &Scene,
    number: usize,
    field: &Field,
    old: Id,
    v: Id,
) -> Result<Id, NoMemory>
    requires field { HasField net.old scene.now number field.now }
    requires old { Stands net.old old field.now.width }
    requires v { Stands net.old v field.now.width }
    ensures older { Grows net.old net.new }
    ensures name { net.new.name ≡ net.old.name }
    ensures made { IfOk result (λ id. IsFinished scene.now.base.now.block.now scene.now.base.now.inlet net.old net.new field.now old v id) }
{
    let from = FinishIds {
        set: scene.set(number, field),
        clear: scene.clear(number, field),
        mask: scene.keep(field),
    };
    let id = finish(net, field, old, v, &from)?;
    Ok(id)
}

/// What hardware makes of the value of the field of a number. The only error is want of memory.
#[tactic(auto, using(rtl_net::proofs::Nets::building))]
pub(crate) fn moved(
    net: &mut Netlist,
    scene: &Scene,
    number: usize,
    field: &Field,
    v: Id,
) -> Result<Id, NoMemory>
    requires field { HasField net.old scene.now number field.now }
    requires v { Stands net.old v field.now.width }
    ensures older { Grows net.old net.new }
    ensures name { net.new.name ≡ net.old.name }
    ensures made { IfOk result (λ id. IsMade scene.now.base.now.block.now scene.now.base.now.inlet net.old net.new v id field.now.width
        (λ n u x. machine.hardware n u number field.now x)) }
{
    let load = loaded(net, scene, number, field, v)?;
    let count = stepped(net, scene, number, field, load)?;
    let events = latched(net, scene, number, field, count)?;
    let id = finished(net, scene, number, field, v, events)?;
    Ok(id)
}
