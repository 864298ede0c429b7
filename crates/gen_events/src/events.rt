//! How an interrupt keeps its events.

ghost use Rattle.std.specs.Prelude.{◌≡◌, IfOk, bit_and};
ghost use Rattle.rtl_net.specs.Value.{At};
ghost use Rattle.rtl_net.specs.Net.{Grows, IsNode, Has, Stands, MayHave, seen_or_zero, width_in};
ghost use Rattle.rb_model.specs.Effects as spec;

use net_gates::{choose, differ, flipped, meet, merged, nonzero, present};
use rb_base::{NoMemory, Trigger};
use rb_model::Latch;
use rtl_net::{Id, Netlist};

/// The bits of one node that are 0 in another.
#[tactic(auto, using(rtl_net::proofs::Nets::building))]
fn without(net: &mut Netlist, a: Id, b: Id) -> Result<Id, NoMemory>
    requires a { Has net.old a }
    requires b { Stands net.old b (width_in net.old a) }
    ensures older { Grows net.old net.new }
    ensures name { net.new.name ≡ net.old.name }
    ensures node { IfOk result (λ id. IsNode net.new id (width_in net.old a) (λ x. bit_and (x.node a.0) (spec.turned (width_in net.old a) (x.node b.0)))) }
{
    let turned = flipped(net, b)?;
    let id = meet(net, a, turned)?;
    Ok(id)
}

/// The events at an interrupt's input, where `last` is the input before.
#[tactic(auto, using(rtl_net::proofs::Nets::building))]
fn events(net: &mut Netlist, trigger: Trigger, pin: Id, last: Option<Id>) -> Result<Id, NoMemory>
    requires pin { Has net.old pin }
    requires last { MayHave net.old last (width_in net.old pin) }
    ensures older { Grows net.old net.new }
    ensures name { net.new.name ≡ net.old.name }
    ensures node { IfOk result (λ id. IsNode net.new id (width_in net.old pin) (λ x.
        spec.events trigger (width_in net.old pin) (x.node pin.0) (seen_or_zero x last))) }
{
    let width = net.width(pin);
    match trigger {
        Trigger::Level | Trigger::Nonsticky => Ok(pin),
        Trigger::Posedge => {
            let before = present(net, last, width)?;
            let id = without(net, pin, before)?;
            Ok(id)
        }
        Trigger::Negedge => {
            let before = present(net, last, width)?;
            let turned = flipped(net, pin)?;
            let id = meet(net, turned, before)?;
            Ok(id)
        }
        Trigger::Bothedge => {
            let before = present(net, last, width)?;
            let id = differ(net, pin, before)?;
            Ok(id)
        }
    }
}

/// The value after the latch of the events at an interrupt's input. `last` is the input before, and counts as 0 where
/// it is absent. All are as wide as the value.
#[tactic(auto, using(crate::proofs::Bits::bits))]
pub fn latch(
    net: &mut Netlist,
    how: Latch,
    v: Id,
    pin: Id,
    last: Option<Id>,
) -> Result<Id, NoMemory>
    requires v { Has net.old v }
    requires pin { Stands net.old pin (width_in net.old v) }
    requires last { MayHave net.old last (width_in net.old v) }
    ensures older { Grows net.old net.new }
    ensures name { net.new.name ≡ net.old.name }
    ensures node { IfOk result (λ id. IsNode net.new id (width_in net.old v) (λ x.
        spec.latched how (width_in net.old v) (x.node v.0) (x.node pin.0) (seen_or_zero x last))) }
{
    match how {
        Latch::Off | Latch::Plain => Ok(v),
        Latch::Bits(trigger) => {
            let new = events(net, trigger, pin, last)?;
            let id = merged(net, v, new)?;
            Ok(id)
        }
        Latch::Whole(trigger) => {
            let new = events(net, trigger, pin, last)?;
            let some = nonzero(net, v)?;
            let id = choose(net, some, v, new)?;
            Ok(id)
        }
    }
}
