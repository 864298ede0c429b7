//! Nodes of one bit, and a choice by one.

ghost use Rattle.std.specs.Prelude.{◌≡◌, ◌==◌, ◌&&◌, ◌||◌, IfOk, if◌then◌else◌};
ghost use Rattle.rtl_net.specs.Value.{At, bit_of};
ghost use Rattle.rtl_net.specs.Net.{Grows, IsNode, Has, Stands, width_in};

use crate::constants::constant_of;
use rb_base::NoMemory;
use rtl_net::{Id, NetExpr, Netlist};

/// Whether both bits are 1.
#[tactic(auto, using(rtl_net::proofs::Nets::building))]
pub fn both(net: &mut Netlist, a: Id, b: Id) -> Result<Id, NoMemory>
    requires a_stands { Stands net.old a 1 }
    requires b_stands { Stands net.old b 1 }
    ensures older { Grows net.old net.new }
    ensures name { net.new.name ≡ net.old.name }
    ensures node { IfOk result (λ id. IsNode net.new id 1 (λ x. bit_of (x.node a.0 == 1 && x.node b.0 == 1))) }
{
    match (constant_of(net, a), constant_of(net, b)) {
        (Some(0), _) | (_, Some(1)) => Ok(a),
        (_, Some(0)) | (Some(1), _) => Ok(b),
        _ => net.fold(NetExpr::And(a, b)),
    }
}

/// Whether one of the bits is 1.
#[tactic(auto, using(rtl_net::proofs::Nets::building))]
pub fn either(net: &mut Netlist, a: Id, b: Id) -> Result<Id, NoMemory>
    requires a_stands { Stands net.old a 1 }
    requires b_stands { Stands net.old b 1 }
    ensures older { Grows net.old net.new }
    ensures name { net.new.name ≡ net.old.name }
    ensures node { IfOk result (λ id. IsNode net.new id 1 (λ x. bit_of (x.node a.0 == 1 || x.node b.0 == 1))) }
{
    match (constant_of(net, a), constant_of(net, b)) {
        (Some(0), _) | (_, Some(1)) => Ok(b),
        (_, Some(0)) | (Some(1), _) => Ok(a),
        _ => net.fold(NetExpr::Or(a, b)),
    }
}

/// Whether a bit is 0.
#[tactic(auto, using(rtl_net::proofs::Nets::building))]
pub fn opposite(net: &mut Netlist, a: Id) -> Result<Id, NoMemory>
    requires { Stands net.old a 1 }
    ensures older { Grows net.old net.new }
    ensures name { net.new.name ≡ net.old.name }
    ensures node { IfOk result (λ id. IsNode net.new id 1 (λ x. bit_of (x.node a.0 == 0))) }
{
    net.fold(NetExpr::Not(a))
}

/// The first value where the bit is 1, else the second.
#[tactic(auto, using(rtl_net::proofs::Nets::building))]
pub fn choose(net: &mut Netlist, c: Id, a: Id, b: Id) -> Result<Id, NoMemory>
    requires c_stands { Stands net.old c 1 }
    requires a_stands { Has net.old a }
    requires b_stands { Stands net.old b (width_in net.old a) }
    ensures older { Grows net.old net.new }
    ensures name { net.new.name ≡ net.old.name }
    ensures node { IfOk result (λ id. IsNode net.new id (width_in net.old a) (λ x. if x.node c.0 == 1 then x.node a.0 else x.node b.0)) }
{
    if a == b {
        return Ok(a);
    }
    match constant_of(net, c) {
        Some(1) => Ok(a),
        Some(_) => Ok(b),
        None => net.fold(NetExpr::Pick(c, a, b)),
    }
}
