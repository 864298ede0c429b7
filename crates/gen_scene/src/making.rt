//! An item's node, from those that it refers to.

ghost use Rattle.std.specs.Prelude.{◌≡◌, ◌<◌, ◌≤◌, ◌∷◌, [], ℕ, Some, true, IfOk, is_some, nat_le, slice_get, unwrap_or};
ghost use Rattle.std.specs.Option.{option_map_or};
ghost use Rattle.rtl_net.specs.Value.{bit_of};
ghost use Rattle.rtl_net.specs.Net.{Grows, Stands};
ghost use Rattle.rb_model.specs.Effects as effects;
ghost use Rattle.rb_model.specs.Kept.{Val};
ghost use Rattle.rb_model.specs.Items as spec;
ghost use Rattle.rb_model.specs.Items.{Now, ItemValues};
ghost use Rattle.rb_model.specs.References.{class_refs, count_refs, level_refs};
ghost use Rattle.gen_scene.specs.Bases.{IsBase};
ghost use Rattle.gen_scene.specs.Fields.{CanLevel, HasNodes};
ghost use Rattle.gen_scene.specs.Worth.{IsWorth};

use crate::scene::Scene;
use gen_events::{overflow, underflow};
use net_gates::{less, number, opposite, present, zero};
use rb_base::NoMemory;
use rb_model::{Class, Field, Level, RefItem};
use rtl_net::{Id, Netlist};

/// The reset value of a field, or 0.
fn reset_or_zero(field: &Field) -> u128
    ensures { result ≡ unwrap_or field.now.reset 0 }
{
    match field.reset {
        Some(value) => u128::from(value),
        None => 0,
    }
}

/// The node of a field's value at the edge.
pub(crate) fn field_value(
    net: &mut Netlist,
    scene: &Scene,
    place: usize,
    field: &Field,
) -> Result<Id, NoMemory>
    requires base { IsBase net.old scene.now.base.now }
    requires here { slice_get scene.now.base.now.block.now.fields place ≡ Some field.now }
    requires refs { HasNodes net.old scene.now (class_refs field.now.class field.now.source) }
    ensures older { Grows net.old net.new }
    ensures name { net.new.name ≡ net.old.name }
    ensures worth { IfOk result (λ id. IsWorth scene.now.base.now.block.now scene.now.base.now.inlet net.new id field.now.width
        (λ n v. spec.class_value n v field.now.class place field.now)) }
{
    match field.class {
        Class::Storage => present(net, scene.base.value(place), field.width),
        Class::Wire => present(net, scene.given(place, field), field.width),
        Class::Constant => number(net, field.width, reset_or_zero(field)),
    }
}

/// Whether a value has reached a level upwards.
fn at_least(
    net: &mut Netlist,
    scene: &Scene,
    value: Id,
    level: Level,
    width: u8,
) -> Result<Id, NoMemory>
    requires wide { (0 < width) × (width ≤ 64) }
    requires value { Stands net.old value width }
    requires can { CanLevel net.old scene.now width level }
    ensures older { Grows net.old net.new }
    ensures name { net.new.name ≡ net.old.name }
    ensures worth { IfOk result (λ id. (g : Now → ItemValues → ℕ) → IsWorth scene.now.base.now.block.now scene.now.base.now.inlet net.old value width g
        → IsWorth scene.now.base.now.block.now scene.now.base.now.inlet net.new id 1 (λ n v. bit_of (nat_le (spec.level_value v level) (g n v)))) }
{
    let from = scene.level(net, level, width)?;
    let below = less(net, value, from)?;
    let id = opposite(net, below)?;
    Ok(id)
}

/// Whether a value has reached a level downwards.
fn at_most(
    net: &mut Netlist,
    scene: &Scene,
    value: Id,
    level: Level,
    width: u8,
) -> Result<Id, NoMemory>
    requires wide { (0 < width) × (width ≤ 64) }
    requires value { Stands net.old value width }
    requires can { CanLevel net.old scene.now width level }
    ensures older { Grows net.old net.new }
    ensures name { net.new.name ≡ net.old.name }
    ensures worth { IfOk result (λ id. (g : Now → ItemValues → ℕ) → IsWorth scene.now.base.now.block.now scene.now.base.now.inlet net.old value width g
        → IsWorth scene.now.base.now.block.now scene.now.base.now.inlet net.new id 1 (λ n v. bit_of (nat_le (g n v) (spec.level_value v level)))) }
{
    let from = scene.level(net, level, width)?;
    let above = less(net, from, value)?;
    let id = opposite(net, above)?;
    Ok(id)
}

/// incrthreshold of a field: 0 where it is no counter.
pub(crate) fn incr_threshold(
    net: &mut Netlist,
    scene: &Scene,
    place: u32,
    field: &Field,
) -> Result<Id, NoMemory>
    requires base { IsBase net.old scene.now.base.now }
    requires here { slice_get scene.now.base.now.block.now.fields place ≡ Some field.now }
    requires value { HasNodes net.old scene.now (RefItem.Field place ∷ []) }
    requires level { HasNodes net.old scene.now (option_map_or (λ c. level_refs c.above) field.now.count []) }
    ensures older { Grows net.old net.new }
    ensures name { net.new.name ≡ net.old.name }
    ensures worth { IfOk result (λ id. IsWorth scene.now.base.now.block.now scene.now.base.now.inlet net.new id 1
        (λ n v. option_map_or (λ c. bit_of (nat_le (spec.level_value v c.above) (v (RefItem.Field place)))) field.now.count 0)) }
{
    match field.count {
        Some(count) => {
            let value = scene.node(RefItem::Field(place));
            at_least(net, scene, value, count.above, field.width)
        }
        None => zero(net, 1),
    }
}

/// decrthreshold of a field: 0 where it is no counter.
pub(crate) fn decr_threshold(
    net: &mut Netlist,
    scene: &Scene,
    place: u32,
    field: &Field,
) -> Result<Id, NoMemory>
    requires base { IsBase net.old scene.now.base.now }
    requires here { slice_get scene.now.base.now.block.now.fields place ≡ Some field.now }
    requires value { HasNodes net.old scene.now (RefItem.Field place ∷ []) }
    requires level { HasNodes net.old scene.now (option_map_or (λ c. level_refs c.below) field.now.count []) }
    ensures older { Grows net.old net.new }
    ensures name { net.new.name ≡ net.old.name }
    ensures worth { IfOk result (λ id. IsWorth scene.now.base.now.block.now scene.now.base.now.inlet net.new id 1
        (λ n v. option_map_or (λ c. bit_of (nat_le (v (RefItem.Field place)) (spec.level_value v c.below))) field.now.count 0)) }
{
    match field.count {
        Some(count) => {
            let value = scene.node(RefItem::Field(place));
            at_most(net, scene, value, count.below, field.width)
        }
        None => zero(net, 1),
    }
}

/// A counter's value at the edge, and how far it counts.
#[derive(Clone, Copy)]
pub(crate) struct Counter {
    pub value: Id,
    pub up: Id,
    pub down: Id,
}

/// A counter at the edge. All nodes are as wide as the field.
#[tactic(auto, using(rtl_net::proofs::Nets::building))]
fn read_counter(
    net: &mut Netlist,
    scene: &Scene,
    place: usize,
    field: &Field,
) -> Result<Counter, NoMemory>
    requires base { IsBase net.old scene.now.base.now }
    requires here { slice_get scene.now.base.now.block.now.fields place ≡ Some field.now }
    requires counter { is_some field.now.count ≡ true }
    requires refs { HasNodes net.old scene.now (count_refs field.now.count) }
    ensures older { Grows net.old net.new }
    ensures name { net.new.name ≡ net.old.name }
    ensures value { IfOk result (λ c. IsWorth scene.now.base.now.block.now scene.now.base.now.inlet net.new c.value field.now.width (λ n v. n.kept (Val place))) }
    ensures up { IfOk result (λ c. IsWorth scene.now.base.now.block.now scene.now.base.now.inlet net.new c.up field.now.width (λ n v. spec.up n v field.now)) }
    ensures down { IfOk result (λ c. IsWorth scene.now.base.now.block.now scene.now.base.now.inlet net.new c.down field.now.width (λ n v. spec.down n v field.now)) }
{
    let up = scene.counted_up(net, place, field)?;
    let down = scene.counted_down(net, place, field)?;
    let value = present(net, scene.base.value(place), field.width)?;
    Ok(Counter { value, up, down })
}

/// overflow of a counter.
#[tactic(auto, using(rtl_net::proofs::Nets::building))]
pub(crate) fn field_overflow(
    net: &mut Netlist,
    scene: &Scene,
    place: usize,
    field: &Field,
) -> Result<Id, NoMemory>
    requires base { IsBase net.old scene.now.base.now }
    requires here { slice_get scene.now.base.now.block.now.fields place ≡ Some field.now }
    requires counter { is_some field.now.count ≡ true }
    requires refs { HasNodes net.old scene.now (count_refs field.now.count) }
    ensures older { Grows net.old net.new }
    ensures name { net.new.name ≡ net.old.name }
    ensures worth { IfOk result (λ id. IsWorth scene.now.base.now.block.now scene.now.base.now.inlet net.new id 1
        (λ n v. effects.overflows field.now.width (n.kept (Val place)) (spec.up n v field.now) (spec.down n v field.now))) }
{
    let at = read_counter(net, scene, place, field)?;
    let id = overflow(net, at.value, at.up, at.down)?;
    Ok(id)
}

/// underflow of a counter.
#[tactic(auto, using(rtl_net::proofs::Nets::building))]
pub(crate) fn field_underflow(
    net: &mut Netlist,
    scene: &Scene,
    place: usize,
    field: &Field,
) -> Result<Id, NoMemory>
    requires base { IsBase net.old scene.now.base.now }
    requires here { slice_get scene.now.base.now.block.now.fields place ≡ Some field.now }
    requires counter { is_some field.now.count ≡ true }
    requires refs { HasNodes net.old scene.now (count_refs field.now.count) }
    ensures older { Grows net.old net.new }
    ensures name { net.new.name ≡ net.old.name }
    ensures worth { IfOk result (λ id. IsWorth scene.now.base.now.block.now scene.now.base.now.inlet net.new id 1
        (λ n v. effects.underflows (n.kept (Val place)) (spec.up n v field.now) (spec.down n v field.now))) }
{
    let at = read_counter(net, scene, place, field)?;
    let id = underflow(net, at.value, at.up, at.down)?;
    Ok(id)
}
