//! Operators on each bit.

ghost use Rattle.std.specs.Prelude.{◌≡◌, ◌^◌, ◌-◌, ℕ, IfOk, bit_and, bit_or, bit_xor};
ghost use Rattle.rtl_net.specs.Value.{At};
ghost use Rattle.rtl_net.specs.Net.{Grows, IsNode, Has, Stands, width_in};

use crate::constants::{is_full, is_zero};
use rb_base::NoMemory;
use rtl_net::{Id, NetExpr, Netlist};

/// The and of two nodes.
#[tactic(auto, using(crate::proofs::Units::and_units))]
pub fn meet(net: &mut Netlist, a: Id, b: Id) -> Result<Id, NoMemory>
    requires a_stands { Has net.old a }
    requires b_stands { Stands net.old b (width_in net.old a) }
    ensures older { Grows net.old net.new }
    ensures name { net.new.name ≡ net.old.name }
    ensures node { IfOk result (λ id. IsNode net.new id (width_in net.old a) (λ x. bit_and (x.node a.0) (x.node b.0))) }
{
    if is_zero(net, a) || is_full(net, b) {
        return Ok(a);
    }
    if is_zero(net, b) || is_full(net, a) {
        return Ok(b);
    }
    net.fold(NetExpr::And(a, b))
}

/// The or of two nodes.
#[tactic(auto, using(crate::proofs::Units::or_units))]
pub fn merged(net: &mut Netlist, a: Id, b: Id) -> Result<Id, NoMemory>
    requires a_stands { Has net.old a }
    requires b_stands { Stands net.old b (width_in net.old a) }
    ensures older { Grows net.old net.new }
    ensures name { net.new.name ≡ net.old.name }
    ensures node { IfOk result (λ id. IsNode net.new id (width_in net.old a) (λ x. bit_or (x.node a.0) (x.node b.0))) }
{
    if is_zero(net, a) || is_full(net, b) {
        return Ok(b);
    }
    if is_zero(net, b) || is_full(net, a) {
        return Ok(a);
    }
    net.fold(NetExpr::Or(a, b))
}

/// The exclusive or of two nodes.
#[tactic(auto, using(crate::proofs::Units::xor_units))]
pub fn differ(net: &mut Netlist, a: Id, b: Id) -> Result<Id, NoMemory>
    requires a_stands { Has net.old a }
    requires b_stands { Stands net.old b (width_in net.old a) }
    ensures older { Grows net.old net.new }
    ensures name { net.new.name ≡ net.old.name }
    ensures node { IfOk result (λ id. IsNode net.new id (width_in net.old a) (λ x. bit_xor (x.node a.0) (x.node b.0))) }
{
    if is_zero(net, a) {
        return Ok(b);
    }
    if is_zero(net, b) {
        return Ok(a);
    }
    net.fold(NetExpr::Xor(a, b))
}

/// Each bit turned.
#[tactic(auto, using(rtl_net::proofs::Nets::building))]
pub fn flipped(net: &mut Netlist, a: Id) -> Result<Id, NoMemory>
    requires { Has net.old a }
    ensures older { Grows net.old net.new }
    ensures name { net.new.name ≡ net.old.name }
    ensures node { IfOk result (λ id. IsNode net.new id (width_in net.old a) (λ x. 2 ^ width_in net.old a - 1 - x.node a.0)) }
{
    net.fold(NetExpr::Not(a))
}
