//! What software makes of a field through a view.

ghost use Rattle.std.specs.Prelude.{◌≡◌, ◌==◌, ◌&&◌, not, IfOk, if◌then◌else◌};
ghost use Rattle.rtl_net.specs.Value.{At, bit_of};
ghost use Rattle.rtl_net.specs.Net.{Grows, IsNode, Has, Stands, MayHave, seen_or_zero, width_in};
ghost use Rattle.rb_model.specs.Effects as spec;
ghost use Rattle.gen_fields.specs.Software.{software_of};

use net_gates::{both, choose, differ, flipped, full, is_zero, meet, merged, opposite, zero};
use rb_base::NoMemory;
use rb_model::{Gate, OnRead, OnWrite, View};
use rtl_net::{Id, Netlist};

/// The nodes of an access through a view: whether it writes or reads, the written bits, the view's gate, and whether
/// the field was written before. `bits` is as wide as the field, and the others have one bit.
#[derive(Clone, Copy, Debug, PartialEq, Eq)]
pub struct SoftHit {
    pub write: Id,
    pub read: Id,
    pub bits: Id,
    pub gate: Option<Id>,
    pub done: Option<Id>,
}

/// Whether a bit is 1 while a gate is active.
#[tactic(auto, using(crate::proofs::Bits::bits))]
fn opened(net: &mut Netlist, gate: Gate, by: Option<Id>, bit: Id) -> Result<Id, NoMemory>
    requires bit { Stands net.old bit 1 }
    requires by { MayHave net.old by 1 }
    ensures older { Grows net.old net.new }
    ensures name { net.new.name ≡ net.old.name }
    ensures node { IfOk result (λ id. IsNode net.new id 1 (λ x. bit_of (x.node bit.0 == 1 && spec.is_open gate (seen_or_zero x by)))) }
{
    match (gate, by) {
        (Gate::Always, _) | (Gate::Low(_), None) => Ok(bit),
        (Gate::High(_), None) => zero(net, 1),
        (Gate::High(_), Some(by)) => both(net, bit, by),
        (Gate::Low(_), Some(by)) => {
            let open = opposite(net, by)?;
            let id = both(net, bit, open)?;
            Ok(id)
        }
    }
}

/// Whether a bit is 1 and, where a view may be written once, the field was not written before.
#[tactic(auto, using(crate::proofs::Bits::bits))]
fn fresh(net: &mut Netlist, once: bool, done: Option<Id>, bit: Id) -> Result<Id, NoMemory>
    requires bit { Stands net.old bit 1 }
    requires done { MayHave net.old done 1 }
    ensures older { Grows net.old net.new }
    ensures name { net.new.name ≡ net.old.name }
    ensures node { IfOk result (λ id. IsNode net.new id 1 (λ x. bit_of (x.node bit.0 == 1 && not (once && seen_or_zero x done == 1)))) }
{
    match done {
        Some(done) if once => {
            let first = opposite(net, done)?;
            let id = both(net, bit, first)?;
            Ok(id)
        }
        _ => Ok(bit),
    }
}

/// Whether a write through a view acts: the view writes, its gate is active, and a view that may be written once finds
/// the field not written before.
#[tactic(auto, using(crate::proofs::Bits::bits))]
pub fn acting(net: &mut Netlist, view: &View, hit: &SoftHit) -> Result<Id, NoMemory>
    requires write { Stands net.old hit.now.write 1 }
    requires gate { MayHave net.old hit.now.gate 1 }
    requires done { MayHave net.old hit.now.done 1 }
    ensures older { Grows net.old net.new }
    ensures name { net.new.name ≡ net.old.name }
    ensures node { IfOk result (λ id. IsNode net.new id 1 (λ x.
        bit_of (x.node hit.now.write.0 == 1 && spec.acts view.now (seen_or_zero x hit.now.gate) (seen_or_zero x hit.now.done)))) }
{
    if !view.writes || is_zero(net, hit.write) {
        return zero(net, 1);
    }
    let open = opened(net, view.gate, hit.gate, hit.write)?;
    let id = fresh(net, view.once, hit.done, open)?;
    Ok(id)
}

/// What a write of bits makes of a value (9.6, onwrite).
#[tactic(auto, using(crate::proofs::Bits::bits))]
fn written(net: &mut Netlist, on_write: OnWrite, v: Id, bits: Id) -> Result<Id, NoMemory>
    requires v { Has net.old v }
    requires bits { Stands net.old bits (width_in net.old v) }
    ensures older { Grows net.old net.new }
    ensures name { net.new.name ≡ net.old.name }
    ensures node { IfOk result (λ id. IsNode net.new id (width_in net.old v) (λ x. spec.written on_write (width_in net.old v) (x.node v.0) (x.node bits.0))) }
{
    let width = net.width(v);
    match on_write {
        OnWrite::Off => Ok(bits),
        OnWrite::WoSet => merged(net, v, bits),
        OnWrite::WoClr => {
            let turned = flipped(net, bits)?;
            let id = meet(net, v, turned)?;
            Ok(id)
        }
        OnWrite::WoT => differ(net, v, bits),
        OnWrite::WzS => {
            let turned = flipped(net, bits)?;
            let id = merged(net, v, turned)?;
            Ok(id)
        }
        OnWrite::WzC => meet(net, v, bits),
        OnWrite::WzT => {
            let turned = flipped(net, bits)?;
            let id = differ(net, v, turned)?;
            Ok(id)
        }
        OnWrite::WClr => zero(net, width),
        OnWrite::WSet => full(net, width),
    }
}

/// A value after a write of bits, where the write acts.
#[tactic(auto, using(crate::proofs::Bits::bits))]
fn stored(
    net: &mut Netlist,
    on_write: OnWrite,
    v: Id,
    bits: Id,
    acts: Id,
    other: Id,
) -> Result<Id, NoMemory>
    requires v { Has net.old v }
    requires bits { Stands net.old bits (width_in net.old v) }
    requires acts { Stands net.old acts 1 }
    requires other { Stands net.old other (width_in net.old v) }
    ensures older { Grows net.old net.new }
    ensures name { net.new.name ≡ net.old.name }
    ensures node { IfOk result (λ id. IsNode net.new id (width_in net.old v) (λ x.
        if x.node acts.0 == 1 then spec.written on_write (width_in net.old v) (x.node v.0) (x.node bits.0) else x.node other.0)) }
{
    if is_zero(net, acts) {
        return Ok(other);
    }
    let new = written(net, on_write, v, bits)?;
    let id = choose(net, acts, new, other)?;
    Ok(id)
}

/// What a read makes of a value (9.6, onread).
#[tactic(auto, using(crate::proofs::Bits::bits))]
fn after_read(net: &mut Netlist, on_read: OnRead, v: Id) -> Result<Id, NoMemory>
    requires { Has net.old v }
    ensures older { Grows net.old net.new }
    ensures name { net.new.name ≡ net.old.name }
    ensures node { IfOk result (λ id. IsNode net.new id (width_in net.old v) (λ x. spec.after_read on_read (width_in net.old v) (x.node v.0))) }
{
    let width = net.width(v);
    match on_read {
        OnRead::Off => Ok(v),
        OnRead::RClr => zero(net, width),
        OnRead::RSet => full(net, width),
    }
}

/// A value after a read, where there is one.
#[tactic(auto, using(crate::proofs::Bits::bits))]
fn taken(net: &mut Netlist, on_read: OnRead, v: Id, read: Id) -> Result<Id, NoMemory>
    requires v { Has net.old v }
    requires read { Stands net.old read 1 }
    ensures older { Grows net.old net.new }
    ensures name { net.new.name ≡ net.old.name }
    ensures node { IfOk result (λ id. IsNode net.new id (width_in net.old v) (λ x.
        if x.node read.0 == 1 then spec.after_read on_read (width_in net.old v) (x.node v.0) else x.node v.0)) }
{
    if is_zero(net, read) {
        return Ok(v);
    }
    let after = after_read(net, on_read, v)?;
    let id = choose(net, read, after, v)?;
    Ok(id)
}

/// The value after an access through a view. A constant 0 for `write` or `read` costs no node.
#[tactic(auto, using(crate::proofs::Bits::bits))]
pub fn software(net: &mut Netlist, view: &View, v: Id, hit: &SoftHit) -> Result<Id, NoMemory>
    requires v { Has net.old v }
    requires write { Stands net.old hit.now.write 1 }
    requires read { Stands net.old hit.now.read 1 }
    requires bits { Stands net.old hit.now.bits (width_in net.old v) }
    requires gate { MayHave net.old hit.now.gate 1 }
    requires done { MayHave net.old hit.now.done 1 }
    ensures older { Grows net.old net.new }
    ensures name { net.new.name ≡ net.old.name }
    ensures node { IfOk result (λ id. IsNode net.new id (width_in net.old v) (λ x.
        software_of view.now (width_in net.old v) (x.node v.0) (x.node hit.now.write.0) (x.node hit.now.read.0) (x.node hit.now.bits.0)
        (seen_or_zero x hit.now.gate) (seen_or_zero x hit.now.done))) }
{
    let other = taken(net, view.on_read, v, hit.read)?;
    let acts = acting(net, view, hit)?;
    let id = stored(net, view.on_write, v, hit.bits, acts, other)?;
    Ok(id)
}
