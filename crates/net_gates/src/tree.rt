//! The or of many nodes.

ghost use Rattle.std.specs.Prelude.{◌≡◌, IfOk, All};
ghost use Rattle.rtl_net.specs.Value.{At};
ghost use Rattle.rtl_net.specs.Net.{Grows, IsNode, IsWidth, Stands};
ghost use Rattle.net_gates.specs.Gates.{or_of};

use crate::constants::zero;
use crate::words::merged;
use rb_base::NoMemory;
use rtl_net::{Id, Netlist};

/// The or of nodes of a width in bits, as a tree whose depth is the logarithm of their number.
#[tactic(auto, using(rtl_net::proofs::Nets::building))]
pub fn or_all(net: &mut Netlist, width: u8, ids: &[Id]) -> Result<Id, NoMemory>
    requires wide { IsWidth width }
    requires stand { All (λ i. Stands net.old i width) ids.now }
    ensures older { Grows net.old net.new }
    ensures name { net.new.name ≡ net.old.name }
    ensures node { IfOk result (λ id. IsNode net.new id width (λ x. or_of x ids.now)) }
{
    if ids.is_empty() {
        return zero(net, width);
    }
    if ids.len() == 1 {
        return Ok(ids[0]);
    }
    let (left, right) = ids.split_at(ids.len() / 2);
    let a = or_all(net, width, left)?;
    let b = or_all(net, width, right)?;
    let id = merged(net, a, b)?;
    Ok(id)
}
