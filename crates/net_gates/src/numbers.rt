//! Sums and comparisons.

ghost use Rattle.std.specs.Prelude.{◌≡◌, ◌+◌, ◌-◌, ◌%◌, ◌^◌, ℕ, IfOk, nat_lt};
ghost use Rattle.rtl_net.specs.Value.{At, bit_of};
ghost use Rattle.rtl_net.specs.Net.{Grows, IsNode, Has, Stands, width_in};

use crate::constants::{is_zero, zero};
use rb_base::NoMemory;
use rtl_net::{Id, NetExpr, Netlist};

/// The sum of two nodes modulo their width.
#[tactic(auto, using(crate::proofs::Units::sum_units))]
pub fn sum(net: &mut Netlist, a: Id, b: Id) -> Result<Id, NoMemory>
    requires a_stands { Has net.old a }
    requires b_stands { Stands net.old b (width_in net.old a) }
    ensures older { Grows net.old net.new }
    ensures name { net.new.name ≡ net.old.name }
    ensures node { IfOk result (λ id. IsNode net.new id (width_in net.old a) (λ x. (x.node a.0 + x.node b.0) % 2 ^ width_in net.old a)) }
{
    if is_zero(net, a) {
        return Ok(b);
    }
    if is_zero(net, b) {
        return Ok(a);
    }
    net.fold(NetExpr::Add(a, b))
}

/// The first node less the second modulo their width.
#[tactic(auto, using(crate::proofs::Units::sum_units))]
pub fn difference(net: &mut Netlist, a: Id, b: Id) -> Result<Id, NoMemory>
    requires a_stands { Has net.old a }
    requires b_stands { Stands net.old b (width_in net.old a) }
    ensures older { Grows net.old net.new }
    ensures name { net.new.name ≡ net.old.name }
    ensures node { IfOk result (λ id. IsNode net.new id (width_in net.old a)
        (λ x. (x.node a.0 + 2 ^ width_in net.old a - x.node b.0) % 2 ^ width_in net.old a)) }
{
    if is_zero(net, b) {
        return Ok(a);
    }
    net.fold(NetExpr::Sub(a, b))
}

/// Whether the first node is below the second.
#[tactic(auto, using(crate::proofs::Units::sum_units))]
pub fn less(net: &mut Netlist, a: Id, b: Id) -> Result<Id, NoMemory>
    requires a_stands { Has net.old a }
    requires b_stands { Stands net.old b (width_in net.old a) }
    ensures older { Grows net.old net.new }
    ensures name { net.new.name ≡ net.old.name }
    ensures node { IfOk result (λ id. IsNode net.new id 1 (λ x. bit_of (nat_lt (x.node a.0) (x.node b.0)))) }
{
    if is_zero(net, b) {
        return zero(net, 1);
    }
    net.fold(NetExpr::Lt(a, b))
}

/// Whether a node is not 0. Of one bit that is the node itself.
#[tactic(auto, using(crate::proofs::Units::sum_units))]
pub fn nonzero(net: &mut Netlist, a: Id) -> Result<Id, NoMemory>
    requires { Has net.old a }
    ensures older { Grows net.old net.new }
    ensures name { net.new.name ≡ net.old.name }
    ensures node { IfOk result (λ id. IsNode net.new id 1 (λ x. bit_of (nat_lt 0 (x.node a.0)))) }
{
    if net.width(a) == 1 {
        return Ok(a);
    }
    net.fold(NetExpr::Any(a))
}
