//! A number spread over one node for each of its values.

ghost use Rattle.std.specs.Prelude.{◌≡◌, ◌<◌, ◌≤◌, ◌+◌, ◌*◌, ◌-◌, ◌/◌, ◌%◌, ◌^◌, ◌==◌, ◌&&◌, true, IfOk, length};
ghost use Rattle.rtl_net.specs.Value.{bit_of};
ghost use Rattle.rtl_net.specs.Net.{Grows, IsNode, Stands};
ghost use Rattle.gen_decode.specs.Hits.{AreColumns, AreCrossed, AreHits, AreHitsAbove, AreNeeded, AreSides, StandEach};

use net_gates::{both, opposite, slice};
use rb_base::NoMemory;
use rtl_net::{Id, Netlist};
use std::alloc::Global;

/// The node of a row and of a column where it is needed, and else the row's.
#[tactic(auto, using(rtl_net::proofs::Nets::building))]
fn line(net: &mut Netlist, needed: bool, row: Id, column: Id) -> Result<Id, NoMemory>
    requires row { Stands net.old row 1 }
    requires column { Stands net.old column 1 }
    ensures older { Grows net.old net.new }
    ensures name { net.new.name ≡ net.old.name }
    ensures stands { IfOk result (λ id. Stands net.new id 1) }
    ensures node { IfOk result (λ id. needed ≡ true → IsNode net.new id 1 (λ x. bit_of (x.node row.0 == 1 && x.node column.0 == 1))) }
{
    if !needed {
        return Ok(row);
    }
    let id = both(net, row, column)?;
    Ok(id)
}

/// A node for each number that is needed: that of a row for its bits from `level` up, and of a column for those below. Any node
/// stands for one that isn't.
#[tactic(auto, using(rtl_net::proofs::Nets::building))]
fn crossed(
    alloc: Global,
    net: &mut Netlist,
    rows: &[Id],
    columns: &[Id],
    level: u8,
    needed: &[bool],
) -> Result<Vec<Id>, NoMemory>
    requires rows { StandEach net.old rows.now }
    requires columns { StandEach net.old columns.now }
    requires level { level ≤ 16 }
    requires high { length needed.now ≤ length rows.now * 2 ^ level }
    requires low { length columns.now ≡ 2 ^ level }
    ensures older { Grows net.old net.new }
    ensures name { net.new.name ≡ net.old.name }
    ensures long { IfOk result (λ ids. length ids.items ≡ length needed.now) }
    ensures each { IfOk result (λ ids. AreCrossed net.new rows.now columns.now level needed.now ids.items) }
{
    let mut ids = Vec::with_capacity(alloc, needed.len())?;
    for k in 0..needed.len() {
        let id = line(net, needed[k], rows[k >> level], columns[k % (1 << level)])?;
        ids.push(id)?;
    }
    Ok(ids)
}

/// Which rows have a number that is needed, where a row has those of the same bits from `level` up.
fn rows_of(alloc: Global, needed: &[bool], level: u8) -> Result<Vec<bool>, NoMemory>
    requires some { 0 < length needed.now }
    requires level { level ≤ 16 }
    ensures long { IfOk result (λ rows. length rows.items ≡ (length needed.now - 1) / 2 ^ level + 1) }
    ensures each { IfOk result (λ rows. AreNeeded needed.now level rows.items) }
{
    let last = needed.len() - 1;
    let mut rows = vec![in alloc; false; (last >> level) + 1]?;
    for k in 0..needed.len() {
        if needed[k] {
            rows[k >> level] = true;
        }
    }
    Ok(rows)
}

/// Whether a bit of the number is 0, and whether it is 1.
#[tactic(auto, using(rtl_net::proofs::Nets::building))]
fn sides(alloc: Global, net: &mut Netlist, number: Id, level: u8) -> Result<Vec<Id>, NoMemory>
    requires number { Stands net.old number 16 }
    requires level { level < 16 }
    ensures older { Grows net.old net.new }
    ensures name { net.new.name ≡ net.old.name }
    ensures long { IfOk result (λ ids. length ids.items ≡ 2) }
    ensures each { IfOk result (λ ids. AreSides net.new number level ids.items) }
{
    let bit = slice(net, number, level, level)?;
    let off = opposite(net, bit)?;
    let ids = vec![in alloc; off, bit]?;
    Ok(ids)
}

/// A node for each value of the number's low bits, of which there are at least one.
#[tactic(auto, using(rtl_net::proofs::Nets::building))]
fn columns(alloc: Global, net: &mut Netlist, number: Id, bits: u8) -> Result<Vec<Id>, NoMemory>
    requires number { Stands net.old number 16 }
    requires some { 0 < bits }
    requires bits { bits ≤ 16 }
    ensures older { Grows net.old net.new }
    ensures name { net.new.name ≡ net.old.name }
    ensures long { IfOk result (λ ids. length ids.items ≡ 2 ^ bits) }
    ensures each { IfOk result (λ ids. AreColumns net.new number bits ids.items) }
{
    let level = bits - 1;
    let top = sides(alloc, net, number, level)?;
    if level == 0 {
        return Ok(top);
    }
    let low = columns(alloc, net, number, level)?;
    let all = vec![in alloc; true; 1 << bits]?;
    let ids = crossed(alloc, net, &top, &low, level, &all)?;
    Ok(ids)
}

/// A node for each value that is needed of the number's bits from `level` up, as far as those of `last`.
#[tactic(auto, using(rtl_net::proofs::Nets::building))]
fn above(
    alloc: Global,
    net: &mut Netlist,
    on: Id,
    number: Id,
    last: usize,
    level: u8,
    needed: &[bool],
) -> Result<Vec<Id>, NoMemory>
    requires on { Stands net.old on 1 }
    requires number { Stands net.old number 16 }
    requires last { last < 65536 }
    requires level { level ≤ 16 }
    requires needed { length needed.now ≡ last / 2 ^ level + 1 }
    ensures older { Grows net.old net.new }
    ensures name { net.new.name ≡ net.old.name }
    ensures long { IfOk result (λ ids. length ids.items ≡ last / 2 ^ level + 1) }
    ensures each { IfOk result (λ ids. AreHitsAbove net.new on number last level needed.now ids.items) }
{
    if last >> level == 0 {
        let alone = vec![in alloc; on]?;
        return Ok(alone);
    }
    let halves = rows_of(alloc, needed, 1)?;
    let rows = above(alloc, net, on, number, last, level + 1, &halves)?;
    let pair = sides(alloc, net, number, level)?;
    let ids = crossed(alloc, net, &rows, &pair, 1, needed)?;
    Ok(ids)
}

/// Half of the bits of a number, rounded down.
fn half_of_bits(last: usize) -> u8
    requires { last < 65536 }
    ensures { result ≤ 8 }
{
    ((usize::BITS - last.leading_zeros()) / 2) as u8
}

/// For each number that is needed whether `on` is 1 and `number` is that number. While `on` is 1, `number` is below the count of
/// numbers (at most 65,536). Any node of one bit stands for a number that isn't needed. The only error is want of memory.
pub fn hits(
    alloc: Global,
    net: &mut Netlist,
    on: Id,
    number: Id,
    needed: &[bool],
) -> Result<Vec<Id>, NoMemory>
    requires on { Stands net.old on 1 }
    requires number { Stands net.old number 16 }
    requires few { length needed.now ≤ 65536 }
    ensures older { Grows net.old net.new }
    ensures name { net.new.name ≡ net.old.name }
    ensures long { IfOk result (λ ids. length ids.items ≡ length needed.now) }
    ensures each { IfOk result (λ ids. AreHits net.new on number needed.now ids.items) }
{
    if needed.is_empty() {
        return Ok(Vec::new(alloc));
    }
    let last = needed.len() - 1;
    let bits = half_of_bits(last);
    let wanted = rows_of(alloc, needed, bits)?;
    let rows = above(alloc, net, on, number, last, bits, &wanted)?;
    if bits == 0 {
        return Ok(rows);
    }
    let low = columns(alloc, net, number, bits)?;
    let ids = crossed(alloc, net, &rows, &low, bits, needed)?;
    Ok(ids)
}
