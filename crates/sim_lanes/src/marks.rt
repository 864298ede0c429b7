//! Which operations are due: a bit for each, 64 in a word.
ghost use Rattle.std.specs.Prelude.{◌≡◌, ◌≢◌, ℕ, ◌+◌, ◌*◌, ◌<◌, length};
ghost use Rattle.std.specs.Bool.{OnTrue};
ghost use Rattle.sim_lanes.specs.Due.{AreClear, Marks, due_at};

/// Makes an operation due.
#[inline(always)]
pub(crate) fn mark(due: &mut [u64], operation: u32)
    ensures kept { (k : ℕ) → due_at due.new k ≡ 0 → due_at due.old k ≡ 0 }
    ensures marked { operation < 64 * length due.old → due_at due.new operation ≡ 1 }
{
    let word = operation as usize / 64;
    if word < due.len() {
        due[word] |= 1 << (operation % 64);
    }
}

/// Makes operations due.
#[inline(always)]
pub(crate) fn mark_all(due: &mut [u64], operations: &[u32])
    ensures { Marks operations.now due.old due.new }
{
    for operation in operations {
        mark(due, *operation);
    }
}

/// Takes an operation, of a word and a bit, from those that are due.
#[inline(always)]
pub(crate) fn unmark(due: &mut [u64], word: usize, bit: u32)
    requires word { word < length due.old }
    requires bit { bit < 64 }
    ensures { (k : ℕ) → k ≢ 64 * word + bit → due_at due.new k ≡ due_at due.old k }
{
    due[word] &= !(1 << bit);
}

/// Whether no operation is due.
pub(crate) fn are_clear(due: &[u64]) -> bool
    ensures { OnTrue result (AreClear due.now) }
{
    for word in due {
        if *word != 0 {
            return false;
        }
    }
    true
}

/// Takes all operations from those that are due.
pub(crate) fn clear(due: &mut [u64]) {
    for word in due.iter_mut() {
        *word = 0;
    }
}
