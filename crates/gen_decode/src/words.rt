//! An address decoded bit by bit, runs of bits that words share at once.

ghost use Rattle.std.specs.Prelude.{◌≡◌, ◌==◌, ◌<◌, ◌≤◌, ◌+◌, ◌-◌, ◌*◌, ◌/◌, ◌%◌, ◌^◌, IfOk, length, position, unwrap_or};
ghost use Rattle.std.specs.List.{list_any};
ghost use Rattle.std.specs.List.Sorted.{IsStrictlyIncreasing};
ghost use Rattle.rtl_net.specs.Value.{At, bit_of};
ghost use Rattle.rtl_net.specs.Net.{Grows, IsNode, Stands};
ghost use Rattle.rb_base.specs.Bits.{part};
ghost use Rattle.gen_decode.specs.Among.{AreWithin, IsAmong, IsCut, IsJoined, IsNarrowed, MayDecode};

use crate::runs::{Run, evenly_spaced, shared_run};
use net_gates::{both, choose, number, opposite, slice, zero};
use rb_base::NoMemory;
use rtl_net::{Id, NetExpr, Netlist};

/// The nodes of a decoded address.
#[derive(Clone, Copy)]
pub struct Decoded {
    /// Whether the address is a word's (1 bit).
    pub hit: Id,
    /// The word's number (16 bits).
    pub word: Id,
}

/// The entries below a number, and the others.
fn halves(words: &[u32], middle: u32) -> (&[u32], &[u32])
    requires { IsStrictlyIncreasing words.now }
    ensures { IsCut words.now result.0.now result.1.now middle }
{
    words.split_at(words.partition_point(|w| *w < middle))
}

/// The middle of a range of addresses.
fn middle_of(base: u32, half: u8) -> u32
    requires half { half < 32 }
    requires room { base + 2 ^ half < 2 ^ 32 }
    ensures { result ≡ base + 2 ^ half }
{
    base + (1 << half)
}

/// The one entry of a range of one address.
#[tactic(auto, using(rtl_net::proofs::Nets::building))]
fn last(net: &mut Netlist, first: u32) -> Result<Decoded, NoMemory>
    requires { first < 65536 }
    ensures older { Grows net.old net.new }
    ensures name { net.new.name ≡ net.old.name }
    ensures hit { IfOk result (λ d. IsNode net.new d.hit 1 (λ x. 1)) }
    ensures word { IfOk result (λ d. IsNode net.new d.word 16 (λ x. first)) }
{
    let hit = number(net, 1, 1)?;
    let word = number(net, 16, u128::from(first))?;
    Ok(Decoded { hit, word })
}

/// One of two by a bit, where either may be absent.
#[tactic(auto, using(rtl_net::proofs::Nets::building))]
fn joined(
    net: &mut Netlist,
    bit: Id,
    low: Option<Decoded>,
    high: Option<Decoded>,
) -> Result<Decoded, NoMemory>
    requires bit { Stands net.old bit 1 }
    requires low { MayDecode net.old low }
    requires high { MayDecode net.old high }
    ensures older { Grows net.old net.new }
    ensures name { net.new.name ≡ net.old.name }
    ensures joined { IfOk result (λ d. IsJoined net.new d bit low high) }
{
    match (low, high) {
        (Some(low), Some(high)) => {
            let hit = choose(net, bit, high.hit, low.hit)?;
            let word = choose(net, bit, high.word, low.word)?;
            Ok(Decoded { hit, word })
        }
        (Some(low), None) => {
            let off = opposite(net, bit)?;
            let hit = both(net, off, low.hit)?;
            Ok(Decoded {
                hit,
                word: low.word,
            })
        }
        (None, Some(high)) => {
            let hit = both(net, bit, high.hit)?;
            Ok(Decoded {
                hit,
                word: high.word,
            })
        }
        (None, None) => {
            let hit = number(net, 1, 0)?;
            let word = number(net, 16, 0)?;
            Ok(Decoded { hit, word })
        }
    }
}

/// Whether the bits of an address from `hi` down to `lo` are this number.
#[tactic(auto, using(rtl_net::proofs::Nets::building))]
fn matches(net: &mut Netlist, address: Id, hi: u8, lo: u8, value: u32) -> Result<Id, NoMemory>
    requires address { Stands net.old address 32 }
    requires order { lo ≤ hi }
    requires within { hi < 32 }
    requires fits { value < 2 ^ (hi - lo + 1) }
    ensures older { Grows net.old net.new }
    ensures name { net.new.name ≡ net.old.name }
    ensures node { IfOk result (λ id. IsNode net.new id 1 (λ x. bit_of (part (x.node address.0) hi lo == value))) }
{
    let bits = slice(net, address, hi, lo)?;
    if hi > lo {
        let wanted = number(net, hi - lo + 1, u128::from(value))?;
        let id = net.fold(NetExpr::Eq(bits, wanted))?;
        return Ok(id);
    }
    if value == 1 {
        return Ok(bits);
    }
    let off = opposite(net, bits)?;
    Ok(off)
}

/// Whether so many low bits of an address are 0.
#[tactic(auto, using(rtl_net::proofs::Nets::building))]
fn divides(net: &mut Netlist, address: Id, low: u8) -> Result<Id, NoMemory>
    requires address { Stands net.old address 32 }
    requires low { low < 32 }
    ensures older { Grows net.old net.new }
    ensures name { net.new.name ≡ net.old.name }
    ensures node { IfOk result (λ id. IsNode net.new id 1 (λ x. bit_of (x.node address.0 % 2 ^ low == 0))) }
{
    if low == 0 {
        let always = number(net, 1, 1)?;
        return Ok(always);
    }
    let id = matches(net, address, low - 1, 0, 0)?;
    Ok(id)
}

/// The number of a word, of which `index` bits of the address from `low` up are the lowest, and the others those of `first`.
#[tactic(auto, using(rtl_net::proofs::Nets::building))]
fn numbered(net: &mut Netlist, address: Id, first: u32, index: u8, low: u8) -> Result<Id, NoMemory>
    requires address { Stands net.old address 32 }
    requires some { 0 < index }
    requires few { index ≤ 16 }
    requires within { low + index ≤ 32 }
    requires first { first < 65536 }
    ensures older { Grows net.old net.new }
    ensures name { net.new.name ≡ net.old.name }
    ensures node { IfOk result (λ id. IsNode net.new id 16 (λ x. first / 2 ^ index * 2 ^ index + x.node address.0 / 2 ^ low % 2 ^ index)) }
{
    let place = slice(net, address, low + (index - 1), low)?;
    if index == 16 {
        return Ok(place);
    }
    let above = number(net, 16 - index, u128::from(first >> index))?;
    let id = net.fold(NetExpr::Cat(above, place))?;
    Ok(id)
}

/// The words of a range of 2 ^ bits addresses, of which there is one for each number that the range's upper `index` bits can be.
#[tactic(auto, using(rtl_net::proofs::Nets::building))]
fn by_index(
    net: &mut Netlist,
    address: Id,
    first: u32,
    index: u8,
    bits: u8,
) -> Result<Decoded, NoMemory>
    requires address { Stands net.old address 32 }
    requires some { 0 < index }
    requires few { index ≤ 16 }
    requires within { index ≤ bits }
    requires bits { bits ≤ 32 }
    requires first { first < 65536 }
    ensures older { Grows net.old net.new }
    ensures name { net.new.name ≡ net.old.name }
    ensures hit { IfOk result (λ d. IsNode net.new d.hit 1 (λ x. bit_of (x.node address.0 % 2 ^ (bits - index) == 0))) }
    ensures word { IfOk result (λ d. IsNode net.new d.word 16 (λ x. first / 2 ^ index * 2 ^ index + x.node address.0 / 2 ^ (bits - index) % 2 ^ index)) }
{
    let low = bits - index;
    let hit = divides(net, address, low)?;
    let word = numbered(net, address, first, index, low)?;
    Ok(Decoded { hit, word })
}

/// The words of a range of 2 ^ bits addresses that share a run of bits, from those of the addresses that have it.
#[tactic(auto, using(rtl_net::proofs::Nets::building))]
fn narrowed(
    net: &mut Netlist,
    address: Id,
    bits: u8,
    run: Run,
    inner: Option<Decoded>,
) -> Result<Option<Decoded>, NoMemory>
    requires address { Stands net.old address 32 }
    requires bits { bits ≤ 32 }
    requires shorter { run.low < bits }
    requires top { run.top < 2 ^ (bits - run.low) }
    requires inner { MayDecode net.old inner }
    ensures older { Grows net.old net.new }
    ensures name { net.new.name ≡ net.old.name }
    ensures narrowed { IfOk result (λ d. IsNarrowed net.new d inner address (bits - 1) run.low run.top) }
{
    match inner {
        Some(inner) => {
            let test = matches(net, address, bits - 1, run.low, run.top)?;
            let hit = both(net, test, inner.hit)?;
            Ok(Some(Decoded {
                hit,
                word: inner.word,
            }))
        }
        None => Ok(None),
    }
}

/// The entries of the range of 2 ^ bits addresses from base on, if there are any.
#[tactic(auto, using(rtl_net::proofs::Nets::building))]
pub(crate) fn among(
    net: &mut Netlist,
    address: Id,
    words: &[u32],
    first: u32,
    base: u32,
    bits: u8,
) -> Result<Option<Decoded>, NoMemory>
    requires address { Stands net.old address 32 }
    requires bits { bits ≤ 32 }
    requires room { base + 2 ^ bits ≤ 2 ^ 32 }
    requires rising { IsStrictlyIncreasing words.now }
    requires within { AreWithin base bits words.now }
    requires few { first + length words.now ≤ 65536 }
    ensures older { Grows net.old net.new }
    ensures name { net.new.name ≡ net.old.name }
    ensures among { IfOk result (λ d. IsAmong net.new d address words.now first base bits) }
{
    if words.is_empty() {
        return Ok(None);
    }
    if bits == 0 {
        let only = last(net, first)?;
        return Ok(Some(only));
    }
    if let Some(index) = evenly_spaced(words, first, base, bits) {
        let even = by_index(net, address, first, index, bits)?;
        return Ok(Some(even));
    }
    if let Some(common) = shared_run(words, base, bits) {
        let inner = among(net, address, words, first, common.base, common.low)?;
        let narrow = narrowed(net, address, bits, common, inner)?;
        return Ok(narrow);
    }
    let half = bits - 1;
    let middle = middle_of(base, half);
    let (left, right) = halves(words, middle);
    let low = among(net, address, left, first, base, half)?;
    let high = among(net, address, right, first + left.len() as u32, middle, half)?;
    let bit = slice(net, address, half, half)?;
    let all = joined(net, bit, low, high)?;
    Ok(Some(all))
}

/// The word that an address of 32 bits means, of at most 65,536 words whose addresses rise: whether it is the address of one,
/// and the number of that one, or 0. The only error is want of memory.
#[tactic(auto, using(rtl_net::proofs::Nets::building))]
pub fn decode(net: &mut Netlist, address: Id, words: &[u32]) -> Result<Decoded, NoMemory>
    requires address { Stands net.old address 32 }
    requires rising { IsStrictlyIncreasing words.now }
    requires few { length words.now ≤ 65536 }
    ensures older { Grows net.old net.new }
    ensures name { net.new.name ≡ net.old.name }
    ensures hit { IfOk result (λ d. IsNode net.new d.hit 1 (λ x. bit_of (list_any (λ w. x.node address.0 == w) words.now))) }
    ensures word { IfOk result (λ d. IsNode net.new d.word 16 (λ x. unwrap_or (position (λ w. x.node address.0 == w) words.now) 0)) }
{
    let found = among(net, address, words, 0, 0, 32)?;
    let none = zero(net, 16)?;
    match found {
        Some(found) => {
            let word = choose(net, found.hit, found.word, none)?;
            Ok(Decoded {
                hit: found.hit,
                word,
            })
        }
        None => {
            let hit = zero(net, 1)?;
            Ok(Decoded { hit, word: none })
        }
    }
}
