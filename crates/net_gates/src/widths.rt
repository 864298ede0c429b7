//! Nodes cut and put into other widths.

ghost use Rattle.std.specs.Prelude.{◌≡◌, ◌<◌, ◌≤◌, ◌+◌, ◌-◌, ◌*◌, ◌^◌, ℕ, IfOk};
ghost use Rattle.rtl_net.specs.Value.{At};
ghost use Rattle.rtl_net.specs.Net.{Grows, IsNode, Has, width_in};
ghost use Rattle.rb_base.specs.Bits.{part};

use crate::constants::{constant_of, number, zero};
use rb_base::NoMemory;
use rtl_net::{Id, NetExpr, Netlist};

/// The bits of a node from `hi` down to `lo`. All of them are the node itself.
#[tactic(auto, using(crate::proofs::Parts::parts))]
pub fn slice(net: &mut Netlist, v: Id, hi: u8, lo: u8) -> Result<Id, NoMemory>
    requires stands { Has net.old v }
    requires order { lo ≤ hi }
    requires within { hi < width_in net.old v }
    ensures older { Grows net.old net.new }
    ensures name { net.new.name ≡ net.old.name }
    ensures node { IfOk result (λ id. IsNode net.new id (hi - lo + 1) (λ x. part (x.node v.0) hi lo)) }
{
    if lo == 0 && net.width(v) - 1 == hi {
        return Ok(v);
    }
    net.fold(NetExpr::Part(v, hi, lo))
}

/// A node in a width in bits that is not less than its own.
#[tactic(auto, using(crate::proofs::Parts::parts))]
pub fn widened(net: &mut Netlist, v: Id, width: u8) -> Result<Id, NoMemory>
    requires stands { Has net.old v }
    requires room { width_in net.old v ≤ width }
    requires wide { width ≤ 128 }
    ensures older { Grows net.old net.new }
    ensures name { net.new.name ≡ net.old.name }
    ensures node { IfOk result (λ id. IsNode net.new id width (λ x. x.node v.0)) }
{
    let above = width - net.width(v);
    if above == 0 {
        return Ok(v);
    }
    if let Some(value) = constant_of(net, v) {
        return number(net, width, value);
    }
    let zeros = zero(net, above)?;
    let id = net.fold(NetExpr::Cat(zeros, v))?;
    Ok(id)
}

/// A number with zeros below it.
fn raised(value: u128, low: u8) -> u128
    requires few { low < 128 }
    requires fits { value * 2 ^ low < 2 ^ 128 }
    ensures { result ≡ value * 2 ^ low }
{
    value * (1 << low)
}

/// A node in a width in bits, with this many zeros below it.
#[tactic(auto, using(crate::proofs::Parts::parts))]
pub fn placed(net: &mut Netlist, v: Id, low: u8, width: u8) -> Result<Id, NoMemory>
    requires stands { Has net.old v }
    requires room { width_in net.old v + low ≤ width }
    requires wide { width ≤ 128 }
    ensures older { Grows net.old net.new }
    ensures name { net.new.name ≡ net.old.name }
    ensures node { IfOk result (λ id. IsNode net.new id width (λ x. x.node v.0 * 2 ^ low)) }
{
    if low == 0 {
        return widened(net, v, width);
    }
    if let Some(value) = constant_of(net, v) {
        return number(net, width, raised(value, low));
    }
    let zeros = zero(net, low)?;
    let above = net.fold(NetExpr::Cat(v, zeros))?;
    let id = widened(net, above, width)?;
    Ok(id)
}
