//! Numbers among those that are marked.

ghost use Rattle.std.specs.Prelude.{◌≡◌, ◌<◌, ◌≤◌, ◌^◌, IfOk, OnErr, length};
ghost use Rattle.rdl_block_numbers.specs.Ranks as ranks_of;
ghost use Rattle.rdl_block_numbers.specs.Ranks.{AreRanksTo};

use rb_base::NoMemory;
use std::alloc::Global;

/// How many are marked.
fn marked(marks: &[bool]) -> usize
    ensures { result ≡ ranks_of.marked marks.now }
{
    let mut count: usize = 0;
    for mark in marks {
        if *mark {
            count += 1;
        }
    }
    count
}

/// A count below 2^32. The only error is another.
fn small(count: usize) -> Result<u32, NoMemory>
    ensures is { IfOk result (λ n. n ≡ count) }
    ensures below { IfOk result (λ n. count < 2 ^ 32) }
    ensures over { OnErr result (2 ^ 32 ≤ count) }
{
    match u32::try_from(count) {
        Ok(small) => Ok(small),
        Err(_) => Err(NoMemory),
    }
}

/// For each that is marked how many marked ones stand before it, for another how many there are. The only error is want of memory.
pub(crate) fn ranks(alloc: Global, marks: &[bool]) -> Result<Vec<u32>, NoMemory>
    ensures { IfOk result (λ ns. AreRanksTo marks.now (length marks.now) ns.items) }
{
    let all = small(marked(marks))?;
    let mut ranks = Vec::new(alloc);
    let mut before: u32 = 0;
    for mark in marks {
        if *mark {
            ranks.push(before)?;
            before += 1;
        } else {
            ranks.push(all)?;
        }
    }
    Ok(ranks)
}
