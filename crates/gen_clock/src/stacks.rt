//! Bits of a word, one above the other.

ghost use Rattle.std.specs.Prelude.{◌≡◌, ◌≤◌, ◌<◌, ◌+◌, ◌-◌, ◌*◌, ◌^◌, IfOk, Some};
ghost use Rattle.rtl_net.specs.Value.{At};
ghost use Rattle.rtl_net.specs.Net.{Grows, IsNode, Has, Stands, width_in};
ghost use Rattle.gen_clock.specs.Stacks.{IsLaid, IsStack, MayStack, stacked};

use net_gates::{merged, placed, widened, zero};
use rb_base::NoMemory;
use rtl_net::{Id, NetExpr, Netlist};

/// What stands so far of a word: its bits from `low` up to, and without, `top`. All others are 0.
#[derive(Clone, Copy)]
pub(crate) struct Stack {
    pub(crate) bits: Id,
    pub(crate) low: u8,
    pub(crate) top: u8,
}

/// A node above another.
#[tactic(auto, using(rtl_net::proofs::Nets::building))]
fn joined(net: &mut Netlist, high: Id, low: Id) -> Result<Id, NoMemory>
    requires high { Has net.old high }
    requires low { Has net.old low }
    requires room { width_in net.old high + width_in net.old low ≤ 128 }
    ensures older { Grows net.old net.new }
    ensures name { net.new.name ≡ net.old.name }
    ensures node { IfOk result (λ id. IsNode net.new id (width_in net.old high + width_in net.old low)
        (λ x. x.node high.0 * 2 ^ width_in net.old low + x.node low.0)) }
{
    net.fold(NetExpr::Cat(high, low))
}

/// Bits above all that stand.
#[tactic(auto, using(rtl_net::proofs::Nets::building))]
fn over(net: &mut Netlist, stack: Stack, bits: Id, low: u8, top: u8) -> Result<Stack, NoMemory>
    requires stack { IsStack net.old stack }
    requires bits { Stands net.old bits (top - low) }
    requires order { low < top }
    requires apart { stack.top ≤ low }
    requires wide { top ≤ 128 }
    ensures older { Grows net.old net.new }
    ensures name { net.new.name ≡ net.old.name }
    ensures laid { IfOk result (λ s. IsLaid net.new (Some stack) bits low s) }
    ensures top { IfOk result (λ s. s.top ≡ top) }
{
    let below = widened(net, stack.bits, low - stack.low)?;
    let all = joined(net, bits, below)?;
    Ok(Stack {
        bits: all,
        low: stack.low,
        top,
    })
}

/// Bits below all that stand.
#[tactic(auto, using(rtl_net::proofs::Nets::building))]
fn under(net: &mut Netlist, stack: Stack, bits: Id, low: u8, top: u8) -> Result<Stack, NoMemory>
    requires stack { IsStack net.old stack }
    requires bits { Stands net.old bits (top - low) }
    requires order { low < top }
    requires apart { top ≤ stack.low }
    requires wide { stack.top ≤ 128 }
    ensures older { Grows net.old net.new }
    ensures name { net.new.name ≡ net.old.name }
    ensures laid { IfOk result (λ s. IsLaid net.new (Some stack) bits low s) }
    ensures top { IfOk result (λ s. s.top ≡ stack.top) }
{
    let above = placed(net, stack.bits, stack.low - top, stack.top - top)?;
    let all = joined(net, above, bits)?;
    Ok(Stack {
        bits: all,
        low,
        top: stack.top,
    })
}

/// Bits among those that stand.
#[tactic(auto, using(rtl_net::proofs::Nets::building))]
fn among(net: &mut Netlist, stack: Stack, bits: Id, low: u8, width: u8) -> Result<Stack, NoMemory>
    requires stack { IsStack net.old stack }
    requires within { stack.top ≤ width }
    requires bits { Has net.old bits }
    requires room { width_in net.old bits + low ≤ width }
    requires wide { width ≤ 128 }
    ensures older { Grows net.old net.new }
    ensures name { net.new.name ≡ net.old.name }
    ensures laid { IfOk result (λ s. IsLaid net.new (Some stack) bits low s) }
    ensures top { IfOk result (λ s. s.top ≡ width) }
{
    let before = placed(net, stack.bits, stack.low, width)?;
    let shown = placed(net, bits, low, width)?;
    let all = merged(net, before, shown)?;
    Ok(Stack {
        bits: all,
        low: 0,
        top: width,
    })
}

/// The or of what stands, if anything does, and of bits from `low` up, in a word of a width in bits.
#[tactic(auto, using(rtl_net::proofs::Nets::building))]
pub(crate) fn laid(
    net: &mut Netlist,
    stack: Option<Stack>,
    bits: Id,
    low: u8,
    width: u8,
) -> Result<Stack, NoMemory>
    requires stack { MayStack net.old width stack }
    requires bits { Has net.old bits }
    requires room { width_in net.old bits + low ≤ width }
    requires wide { width ≤ 128 }
    ensures older { Grows net.old net.new }
    ensures name { net.new.name ≡ net.old.name }
    ensures laid { IfOk result (λ s. IsLaid net.new stack bits low s) }
    ensures within { IfOk result (λ s. s.top ≤ width) }
{
    let top = net.width(bits) + low;
    match stack {
        None => Ok(Stack { bits, low, top }),
        Some(stack) if stack.top <= low => over(net, stack, bits, low, top),
        Some(stack) if top <= stack.low => under(net, stack, bits, low, top),
        Some(stack) => among(net, stack, bits, low, width),
    }
}

/// The word of a width in bits that stands: 0 where nothing does.
#[tactic(auto, using(rtl_net::proofs::Nets::building))]
pub(crate) fn word_of(net: &mut Netlist, stack: Option<Stack>, width: u8) -> Result<Id, NoMemory>
    requires stack { MayStack net.old width stack }
    requires some { 0 < width }
    requires wide { width ≤ 128 }
    ensures older { Grows net.old net.new }
    ensures name { net.new.name ≡ net.old.name }
    ensures node { IfOk result (λ id. IsNode net.new id width (λ x. stacked x stack)) }
{
    match stack {
        Some(stack) => placed(net, stack.bits, stack.low, width),
        None => zero(net, width),
    }
}
