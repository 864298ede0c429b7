//! Sums as whole numbers, in two bits more than their operands.

ghost use Rattle.std.specs.Prelude.{◌≡◌, ◌+◌, ◌-◌, ◌%◌, ◌≤◌, ◌<◌, ◌^◌, ℕ, IfOk};
ghost use Rattle.rtl_net.specs.Value.{At};
ghost use Rattle.rtl_net.specs.Net.{Grows, IsNode, Has, Stands, width_in};

use net_gates::{constant_of, difference, number, sum, widened};
use rb_base::NoMemory;
use rtl_net::{Id, NetExpr, Netlist};

/// The whole sum of two nodes.
#[tactic(auto, using(crate::proofs::Wraps::wraps))]
pub(crate) fn plus(net: &mut Netlist, a: Id, b: Id) -> Result<Id, NoMemory>
    requires a { Has net.old a }
    requires b { Stands net.old b (width_in net.old a) }
    requires narrow { width_in net.old a ≤ 64 }
    ensures older { Grows net.old net.new }
    ensures name { net.new.name ≡ net.old.name }
    ensures node { IfOk result (λ id. IsNode net.new id (width_in net.old a + 2) (λ x. x.node a.0 + x.node b.0)) }
{
    let width = net.width(a) + 2;
    let wide_a = widened(net, a, width)?;
    let wide_b = widened(net, b, width)?;
    let id = sum(net, wide_a, wide_b)?;
    Ok(id)
}

/// A node and 2 to its width, as a whole sum.
#[tactic(auto, using(crate::proofs::Wraps::wraps))]
pub(crate) fn beyond(net: &mut Netlist, a: Id) -> Result<Id, NoMemory>
    requires a { Has net.old a }
    requires narrow { width_in net.old a ≤ 64 }
    ensures older { Grows net.old net.new }
    ensures name { net.new.name ≡ net.old.name }
    ensures node { IfOk result (λ id. IsNode net.new id (width_in net.old a + 2) (λ x. 2 ^ width_in net.old a + x.node a.0)) }
{
    let width = net.width(a);
    if let Some(value) = constant_of(net, a) {
        return number(net, width + 2, (1 << width) + value);
    }
    let one = number(net, 2, 1)?;
    let id = net.fold(NetExpr::Cat(one, a))?;
    Ok(id)
}

/// The sum of two nodes less a third, modulo their width.
#[tactic(auto, using(crate::proofs::Wraps::wraps))]
pub(crate) fn wrapped(net: &mut Netlist, v: Id, up: Id, down: Id) -> Result<Id, NoMemory>
    requires v { Has net.old v }
    requires up { Stands net.old up (width_in net.old v) }
    requires down { Stands net.old down (width_in net.old v) }
    ensures older { Grows net.old net.new }
    ensures name { net.new.name ≡ net.old.name }
    ensures node { IfOk result (λ id. IsNode net.new id (width_in net.old v)
        (λ x. (x.node v.0 + x.node up.0 + 2 ^ width_in net.old v - x.node down.0) % 2 ^ width_in net.old v)) }
{
    let raised = sum(net, v, up)?;
    let id = difference(net, raised, down)?;
    Ok(id)
}
