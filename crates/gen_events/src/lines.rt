//! Whether an interrupt of a register counts.

ghost use Rattle.std.specs.Prelude.{◌≡◌, IfOk, All};
ghost use Rattle.std.specs.List.{list_any};
ghost use Rattle.rtl_net.specs.Value.{At, bit_of};
ghost use Rattle.rtl_net.specs.Net.{Grows, IsNode, width_in};
ghost use Rattle.gen_events.specs.Counting.{IsMasked, masked_bits, counts_at};

use net_gates::{either, flipped, meet, nonzero, zero};
use rb_base::NoMemory;
use rtl_net::{Id, Netlist};

/// A value whose bits count: all of them, those where a mask of its width is 1, or where `inverted` those where it is 0.
#[derive(Clone, Copy, Debug, PartialEq, Eq)]
pub struct Masked {
    pub value: Id,
    pub mask: Option<Id>,
    pub inverted: bool,
}

/// The bits of a value that count.
#[tactic(auto, using(rtl_net::proofs::Nets::building))]
fn counting(net: &mut Netlist, bits: Masked) -> Result<Id, NoMemory>
    requires { IsMasked net.old bits }
    ensures older { Grows net.old net.new }
    ensures name { net.new.name ≡ net.old.name }
    ensures node { IfOk result (λ id. IsNode net.new id (width_in net.old bits.value) (λ x. masked_bits net.old x bits)) }
{
    match bits.mask {
        None => Ok(bits.value),
        Some(mask) if bits.inverted => {
            let turned = flipped(net, mask)?;
            let id = meet(net, bits.value, turned)?;
            Ok(id)
        }
        Some(mask) => meet(net, bits.value, mask),
    }
}

/// Whether a bit of a value counts.
#[tactic(auto, using(rtl_net::proofs::Nets::building))]
fn counts(net: &mut Netlist, bits: Masked) -> Result<Id, NoMemory>
    requires { IsMasked net.old bits }
    ensures older { Grows net.old net.new }
    ensures name { net.new.name ≡ net.old.name }
    ensures node { IfOk result (λ id. IsNode net.new id 1 (λ x. bit_of (counts_at net.old x bits))) }
{
    let all = counting(net, bits)?;
    let id = nonzero(net, all)?;
    Ok(id)
}

/// Whether a bit of one of these values counts: a register's `intr` or `halt`. None of no values does.
#[tactic(auto, using(rtl_net::proofs::Nets::building))]
pub fn any(net: &mut Netlist, bits: &[Masked]) -> Result<Id, NoMemory>
    requires { All (IsMasked net.old) bits.now }
    ensures older { Grows net.old net.new }
    ensures name { net.new.name ≡ net.old.name }
    ensures node { IfOk result (λ id. IsNode net.new id 1 (λ x. bit_of (list_any (counts_at net.old x) bits.now))) }
{
    if bits.is_empty() {
        return zero(net, 1);
    }
    if bits.len() == 1 {
        return counts(net, bits[0]);
    }
    let (left, right) = bits.split_at(bits.len() / 2);
    let a = any(net, left)?;
    let b = any(net, right)?;
    let id = either(net, a, b)?;
    Ok(id)
}
