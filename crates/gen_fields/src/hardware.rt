//! The first and the last steps of hardware.

ghost use Rattle.std.specs.Prelude.{◌≡◌, ◌==◌, ◌-◌, ◌^◌, ℕ, IfOk, if◌then◌else◌, bit_and, bit_or};
ghost use Rattle.rtl_net.specs.Value.{At};
ghost use Rattle.rtl_net.specs.Net.{Grows, IsNode, Has, Stands, MayHave, seen_or_zero, width_in};
ghost use Rattle.rb_model.specs.Effects as spec;

use net_gates::{choose, flipped, full, is_zero, meet, merged, present, zero};
use rb_base::NoMemory;
use rb_effects::loads;
use rb_model::{Field, Gate, Mask};
use rtl_net::{Id, Netlist};

/// The nodes of a load: the number, as wide as the field, and its gate, of one bit.
#[derive(Clone, Copy, Debug, PartialEq, Eq)]
pub struct LoadIds {
    pub from: Option<Id>,
    pub gate: Option<Id>,
}

/// The nodes of hwset and hwclr, of one bit, and of hwenable or hwmask, as wide as the field.
#[derive(Clone, Copy, Debug, PartialEq, Eq)]
pub struct FinishIds {
    pub set: Option<Id>,
    pub clear: Option<Id>,
    pub mask: Option<Id>,
}

/// A number where a gate is active, else a value.
#[tactic(auto, using(crate::proofs::Bits::bits))]
fn through(net: &mut Netlist, gate: Gate, by: Option<Id>, from: Id, v: Id) -> Result<Id, NoMemory>
    requires v { Has net.old v }
    requires from { Stands net.old from (width_in net.old v) }
    requires by { MayHave net.old by 1 }
    ensures older { Grows net.old net.new }
    ensures name { net.new.name ≡ net.old.name }
    ensures node { IfOk result (λ id. IsNode net.new id (width_in net.old v) (λ x. if spec.is_open gate (seen_or_zero x by) then x.node from.0 else x.node v.0)) }
{
    match (gate, by) {
        (Gate::Always, _) | (Gate::Low(_), None) => Ok(from),
        (Gate::High(_), None) => Ok(v),
        (Gate::High(_), Some(by)) => choose(net, by, from, v),
        (Gate::Low(_), Some(by)) => choose(net, by, v, from),
    }
}

/// The value after the first step of hardware: the load of a number.
#[tactic(auto, using(crate::proofs::Bits::bits))]
pub fn load(net: &mut Netlist, field: &Field, v: Id, from: &LoadIds) -> Result<Id, NoMemory>
    requires v { Stands net.old v field.now.width }
    requires from { MayHave net.old from.now.from field.now.width }
    requires gate { MayHave net.old from.now.gate 1 }
    ensures older { Grows net.old net.new }
    ensures name { net.new.name ≡ net.old.name }
    ensures node { IfOk result (λ id. IsNode net.new id field.now.width (λ x.
        spec.loaded field.now (x.node v.0) (seen_or_zero x from.now.from) (seen_or_zero x from.now.gate))) }
{
    let width = net.width(v);
    if field.pulse {
        return zero(net, width);
    }
    if !loads(field) {
        return Ok(v);
    }
    let number = present(net, from.from, width)?;
    let id = through(net, field.gate, from.gate, number, v)?;
    Ok(id)
}

/// A value, or all ones where a bit is 1.
#[tactic(auto, using(crate::proofs::Bits::bits))]
fn filled(net: &mut Netlist, v: Id, by: Option<Id>) -> Result<Id, NoMemory>
    requires v { Has net.old v }
    requires by { MayHave net.old by 1 }
    ensures older { Grows net.old net.new }
    ensures name { net.new.name ≡ net.old.name }
    ensures node { IfOk result (λ id. IsNode net.new id (width_in net.old v) (λ x. if seen_or_zero x by == 1 then 2 ^ width_in net.old v - 1 else x.node v.0)) }
{
    let width = net.width(v);
    match by {
        Some(by) if !is_zero(net, by) => {
            let ones = full(net, width)?;
            let id = choose(net, by, ones, v)?;
            Ok(id)
        }
        _ => Ok(v),
    }
}

/// A value, or 0 where a bit is 1.
#[tactic(auto, using(crate::proofs::Bits::bits))]
fn cleared(net: &mut Netlist, v: Id, by: Option<Id>) -> Result<Id, NoMemory>
    requires v { Has net.old v }
    requires by { MayHave net.old by 1 }
    ensures older { Grows net.old net.new }
    ensures name { net.new.name ≡ net.old.name }
    ensures node { IfOk result (λ id. IsNode net.new id (width_in net.old v) (λ x. if seen_or_zero x by == 1 then 0 else x.node v.0)) }
{
    let width = net.width(v);
    match by {
        Some(by) if !is_zero(net, by) => {
            let zeros = zero(net, width)?;
            let id = choose(net, by, zeros, v)?;
            Ok(id)
        }
        _ => Ok(v),
    }
}

/// The bits of one node under a mask, and those of another under another.
#[tactic(auto, using(crate::proofs::Bits::bits))]
fn blend(net: &mut Netlist, a: Id, under_a: Id, b: Id, under_b: Id) -> Result<Id, NoMemory>
    requires a { Has net.old a }
    requires under_a { Stands net.old under_a (width_in net.old a) }
    requires b { Stands net.old b (width_in net.old a) }
    requires under_b { Stands net.old under_b (width_in net.old a) }
    ensures older { Grows net.old net.new }
    ensures name { net.new.name ≡ net.old.name }
    ensures node { IfOk result (λ id. IsNode net.new id (width_in net.old a) (λ x.
        bit_or (bit_and (x.node a.0) (x.node under_a.0)) (bit_and (x.node b.0) (x.node under_b.0)))) }
{
    let first = meet(net, a, under_a)?;
    let second = meet(net, b, under_b)?;
    let id = merged(net, first, second)?;
    Ok(id)
}

/// A value in the bits that a mask lets through, and the old value in the others.
#[tactic(auto, using(crate::proofs::Bits::bits))]
fn masked(net: &mut Netlist, keep: Mask, old: Id, v: Id, mask: Option<Id>) -> Result<Id, NoMemory>
    requires v { Has net.old v }
    requires old { Stands net.old old (width_in net.old v) }
    requires mask { MayHave net.old mask (width_in net.old v) }
    ensures older { Grows net.old net.new }
    ensures name { net.new.name ≡ net.old.name }
    ensures node { IfOk result (λ id. IsNode net.new id (width_in net.old v) (λ x. spec.masked keep (width_in net.old v) (x.node old.0) (x.node v.0) (seen_or_zero x mask))) }
{
    let width = net.width(v);
    match keep {
        Mask::Off => Ok(v),
        Mask::Enable(_) => {
            let mask = present(net, mask, width)?;
            let turned = flipped(net, mask)?;
            let id = blend(net, v, mask, old, turned)?;
            Ok(id)
        }
        Mask::Mask(_) => {
            let mask = present(net, mask, width)?;
            let turned = flipped(net, mask)?;
            let id = blend(net, v, turned, old, mask)?;
            Ok(id)
        }
    }
}

/// The value after the last steps of hardware: hwset, hwclr, and hwenable or hwmask, which keeps bits of `old`.
#[tactic(auto, using(crate::proofs::Bits::bits))]
pub fn finish(
    net: &mut Netlist,
    field: &Field,
    old: Id,
    v: Id,
    from: &FinishIds,
) -> Result<Id, NoMemory>
    requires old { Stands net.old old field.now.width }
    requires v { Stands net.old v field.now.width }
    requires set { MayHave net.old from.now.set 1 }
    requires clear { MayHave net.old from.now.clear 1 }
    requires mask { MayHave net.old from.now.mask field.now.width }
    ensures older { Grows net.old net.new }
    ensures name { net.new.name ≡ net.old.name }
    ensures node { IfOk result (λ id. IsNode net.new id field.now.width (λ x.
        spec.finished field.now (x.node old.0) (x.node v.0) (seen_or_zero x from.now.set) (seen_or_zero x from.now.clear) (seen_or_zero x from.now.mask))) }
{
    let set = filled(net, v, from.set)?;
    let clear = cleared(net, set, from.clear)?;
    let id = masked(net, field.keep, old, clear, from.mask)?;
    Ok(id)
}
