//! The interrupts of registers, and the addresses of words.
ghost use Rattle.std.specs.Prelude.{◌≡◌, ◌<◌, ◌≤◌, ◌^◌, [], ℕ, IfOk, OnErr, Some, length, map, slice_get};
ghost use Rattle.rb_model.specs.declared.block.Field.{Field};
ghost use Rattle.block_plan.specs.Plan.{members_among, members_at};

use rb_base::NoMemory;
use rb_effects::is_interrupt;
use rb_model::{Field, Word};
use std::alloc::Global;

/// The number of an index. The only error is an index at or above 2^32.
pub(crate) fn number_of(index: usize) -> Result<u32, NoMemory>
    ensures is { IfOk result (λ n. n ≡ index) }
    ensures over { OnErr result (2 ^ 32 ≤ index) }
{
    // A list of so many parts would have ended memory long before.
    match u32::try_from(index) {
        Ok(number) => Ok(number),
        Err(_) => Err(NoMemory),
    }
}

/// The addresses of words.
pub(crate) fn addresses(alloc: Global, words: &[Word]) -> Result<Vec<u64>, NoMemory>
    ensures { IfOk result (λ all. all.items ≡ map (λ w. w.address) words.now) }
{
    let mut all = Vec::new(alloc);
    for word in words {
        all.push(u64::from(word.address))?;
    }
    Ok(all)
}

/// So many empty lists.
fn no_members(alloc: Global, count: usize) -> Result<Vec<Vec<u32>>, NoMemory>
    ensures sized { IfOk result (λ all. length all.items ≡ count) }
    ensures empty { IfOk result (λ all. (r : ℕ) → members_at all.items r ≡ []) }
{
    let mut all = Vec::new(alloc);
    for _ in 0..count {
        all.push(Vec::new(alloc))?;
    }
    Ok(all)
}

/// The interrupts of each register, by the numbers of the fields, in order.
pub(crate) fn members(
    alloc: Global,
    fields: &[Field],
    regs: usize,
) -> Result<Vec<Vec<u32>>, NoMemory>
    requires { (k : ℕ) (f : Field) → slice_get fields.now k ≡ Some f → f.reg < regs }
    ensures { IfOk result (λ all. (r : ℕ) → members_at all.items r ≡ members_among fields.now r) }
{
    let mut all = no_members(alloc, regs)?;
    for (index, field) in fields.iter().enumerate() {
        if !is_interrupt(field.latch) {
            continue;
        }
        all[field.reg as usize].push(number_of(index)?)?;
    }
    Ok(all)
}
