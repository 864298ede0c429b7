//! Constants among the nodes.

ghost use Rattle.std.specs.Prelude.{◌≡◌, ◌<◌, ◌^◌, ◌-◌, ℕ, IfOk, IfSome};
ghost use Rattle.std.specs.Bool.{OnTrue};
ghost use Rattle.rtl_net.specs.Value.{At};
ghost use Rattle.rtl_net.specs.Net.{Grows, IsNode, IsWidth, Has, MayHave, seen_or_zero, width_in};
ghost use Rattle.rtl_net.specs.Fold.{constant};
ghost use Rattle.net_gates.specs.Gates.{IsAlways};

use rb_base::{NoMemory, ones};
use rtl_net::{Id, NetExpr, NetNode, Netlist};

/// The number of a constant.
fn constant(node: &NetNode) -> Option<u128>
    ensures { result ≡ constant node.now }
{
    match node {
        NetNode::Wire(NetExpr::Const(_, value)) => Some(*value),
        _ => None,
    }
}

/// The number that a node is at every edge, where it is a constant.
pub fn constant_of(net: &Netlist, id: Id) -> Option<u128>
    requires { Has net.now id }
    ensures value { IfSome result (IsAlways net.now id) }
    ensures fits { IfSome result (λ k. k < 2 ^ width_in net.now id) }
{
    constant(&net.nodes()[id.0])
}

/// Whether a node is the constant 0. One that is not may still be 0 at every edge.
pub fn is_zero(net: &Netlist, id: Id) -> bool
    requires { Has net.now id }
    ensures { OnTrue result (IsAlways net.now id 0) }
{
    constant_of(net, id) == Some(0)
}

/// Whether a node is the constant whose bits are all 1. One that is not may still be that at every edge.
pub fn is_full(net: &Netlist, id: Id) -> bool
    requires { Has net.now id }
    ensures { OnTrue result (IsAlways net.now id (2 ^ width_in net.now id - 1)) }
{
    constant_of(net, id) == Some(ones(net.width(id)))
}

/// A constant of a width in bits.
#[tactic(auto, using(rtl_net::proofs::Nets::building))]
pub fn number(net: &mut Netlist, width: u8, value: u128) -> Result<Id, NoMemory>
    requires wide { IsWidth width }
    requires fits { value < 2 ^ width }
    ensures older { Grows net.old net.new }
    ensures name { net.new.name ≡ net.old.name }
    ensures node { IfOk result (λ id. IsNode net.new id width (λ x. value)) }
{
    net.wire(NetExpr::Const(width, value))
}

/// The constant 0 of a width in bits.
#[tactic(auto, using(rtl_net::proofs::Nets::building))]
pub fn zero(net: &mut Netlist, width: u8) -> Result<Id, NoMemory>
    requires { IsWidth width }
    ensures older { Grows net.old net.new }
    ensures name { net.new.name ≡ net.old.name }
    ensures node { IfOk result (λ id. IsNode net.new id width (λ x. 0)) }
{
    number(net, width, 0)
}

/// The constant of a width in bits whose bits are all 1.
#[tactic(auto, using(rtl_net::proofs::Nets::building))]
pub fn full(net: &mut Netlist, width: u8) -> Result<Id, NoMemory>
    requires { IsWidth width }
    ensures older { Grows net.old net.new }
    ensures name { net.new.name ≡ net.old.name }
    ensures node { IfOk result (λ id. IsNode net.new id width (λ x. 2 ^ width - 1)) }
{
    number(net, width, ones(width))
}

/// A node of a width in bits that may be absent: the constant 0 where it is.
#[tactic(auto, using(rtl_net::proofs::Nets::building))]
pub fn present(net: &mut Netlist, id: Option<Id>, width: u8) -> Result<Id, NoMemory>
    requires wide { IsWidth width }
    requires stands { MayHave net.old id width }
    ensures older { Grows net.old net.new }
    ensures name { net.new.name ≡ net.old.name }
    ensures node { IfOk result (λ i. IsNode net.new i width (λ x. seen_or_zero x id)) }
{
    match id {
        Some(id) => Ok(id),
        None => zero(net, width),
    }
}
