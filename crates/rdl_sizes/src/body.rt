//! The body of a node laid out.

ghost use Rattle.std.specs.Prelude.{◌≡◌, ◌+◌, ◌++◌, ◌<◌, ◌&&◌, IfOk, OnOk, flat_map, length, max, nat_lt};
ghost use Rattle.std.specs.List.{All};
ghost use Rattle.rdl_layout.specs.Parts as parts;
ghost use Rattle.rdl_sizes.specs.Elements as elements;
ghost use Rattle.rdl_sizes.specs.Lots.{greatest_access as greatest_in};
ghost use Rattle.rdl_sizes.specs.Lots.{lot_faults, no_alignment, parts_in, small_stride};

use crate::lot::Lot;
use rb_base::NoMemory;
use rdl_base::{Fault, Rule};
use rdl_layout::{Mode, Part, lay};
use std::alloc::Global;

/// A body: its greatest end and its greatest access width, in bytes, and where its elements start, one after the other.
#[derive(Drop)]
pub(crate) struct Laid {
    pub end: u128,
    pub access: u128,
    pub starts: Vec<u128>,
}

/// Whether elements of an instance reach into the next ones.
fn is_small_stride(part: Part, mode: Mode) -> bool
    requires { 0 < part.access }
    ensures { result ≡ nat_lt 0 part.others && nat_lt (parts.stride mode part) part.size }
{
    if part.others == 0 {
        return false;
    }
    match part.stride(mode) {
        Some(stride) => stride < part.size,
        None => false,
    }
}

/// Adds the failure of A1 of an instance.
fn add_small_stride(faults: &mut Vec<Fault>, mode: Mode, lot: Lot) -> Result<(), NoMemory>
    requires { 0 < lot.part.access }
    ensures { OnOk result (faults.new.items ≡ faults.old.items ++ small_stride mode lot) }
{
    if is_small_stride(lot.part, mode) {
        faults.push(Fault {
            place: lot.place,
            rule: Rule::A1,
        })?;
    }
    Ok(())
}

/// Adds the failure of A2 of an instance.
fn add_no_alignment(faults: &mut Vec<Fault>, lot: Lot) -> Result<(), NoMemory>
    ensures { OnOk result (faults.new.items ≡ faults.old.items ++ no_alignment lot) }
{
    if lot.part.align == Some(0) {
        faults.push(Fault {
            place: lot.place,
            rule: Rule::A2,
        })?;
    }
    Ok(())
}

/// Adds the failures of A1 and A2 of the instances of a body.
pub(crate) fn add_faults(faults: &mut Vec<Fault>, mode: Mode, lots: &[Lot]) -> Result<(), NoMemory>
    requires { All (λ l. 0 < l.part.access) lots.now }
    ensures { OnOk result (faults.new.items ≡ faults.old.items ++ flat_map (lot_faults mode) lots.now) }
{
    for lot in lots {
        add_small_stride(faults, mode, *lot)?;
        add_no_alignment(faults, *lot)?;
    }
    Ok(())
}

fn parts_of(alloc: Global, lots: &[Lot]) -> Result<Vec<Part>, NoMemory>
    ensures { IfOk result (λ ps. ps.items ≡ parts_in lots.now) }
{
    let mut parts = Vec::new(alloc);
    for lot in lots {
        parts.push(lot.part)?;
    }
    Ok(parts)
}

/// The greatest access width of all instances.
fn greatest_access(lots: &[Lot]) -> u128
    ensures { result ≡ greatest_in lots.now }
{
    let mut greatest = 0;
    for at in (0..lots.len()).rev() {
        greatest = lots[at].part.access.max(greatest);
    }
    greatest
}

/// Adds the starts of an instance's elements. The only error is want of memory, or a number at or above 2^128.
fn add_elements(
    starts: &mut Vec<u128>,
    start: u128,
    step: u128,
    others: u64,
) -> Result<(), NoMemory>
    ensures { OnOk result (starts.new.items ≡ starts.old.items ++ elements.elements start step (others + 1)) }
{
    let mut at = start;
    starts.push(at)?;
    for each in 0..others {
        let Some(next) = at.checked_add(step) else {
            return Err(NoMemory);
        };
        at = next;
        starts.push(at)?;
    }
    Ok(())
}

/// The starts of the elements of all instances, whose first elements start here.
fn element_starts(
    alloc: Global,
    mode: Mode,
    parts: &[Part],
    firsts: &[u128],
) -> Result<Vec<u128>, NoMemory>
    requires wide { All (λ p. 0 < p.access) parts.now }
    requires many { length firsts.now ≡ length parts.now }
    ensures { IfOk result (λ ss. ss.items ≡ elements.element_starts mode parts.now firsts.now) }
{
    let mut starts = Vec::new(alloc);
    for (index, part) in parts.iter().enumerate() {
        let Some(stride) = part.stride(mode) else {
            return Err(NoMemory);
        };
        add_elements(&mut starts, firsts[index], stride, part.others)?;
    }
    Ok(starts)
}

/// Lays out the instances of a body. The only error is want of memory, or a number at or above 2^128.
pub(crate) fn lay_out(alloc: Global, mode: Mode, lots: &[Lot]) -> Result<Laid, NoMemory>
    requires { All (λ l. 0 < l.part.access) lots.now }
    ensures end { IfOk result (λ b. b.end ≡ parts.greatest_end mode 0 (parts_in lots.now)) }
    ensures access { IfOk result (λ b. b.access ≡ max 1 (greatest_in lots.now)) }
    ensures starts { IfOk result (λ b. b.starts.items ≡ elements.element_starts mode (parts_in lots.now) (parts.starts mode 0 (parts_in lots.now))) }
{
    let parts = parts_of(alloc, lots)?;
    let body = lay(alloc, mode, &parts)?;
    let starts = element_starts(alloc, mode, &parts, &body.starts)?;
    let access = 1.max(greatest_access(lots));
    Ok(Laid {
        end: body.end,
        access,
        starts,
    })
}
