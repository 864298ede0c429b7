//! What the addresses of words have in common.

ghost use Rattle.std.specs.Prelude.{◌≡◌, ◌<◌, ◌≤◌, ◌+◌, ◌*◌, ◌/◌, ◌^◌, ℕ, IfSome, true, length, get_or};
ghost use Rattle.std.specs.List.Sorted.{IsStrictlyIncreasing};
ghost use Rattle.gen_decode.specs.Among.{AreWithin};
ghost use Rattle.gen_decode.specs.Runs.{IsEven, IsRun};

/// Upper bits that all words of a range share.
#[derive(Clone, Copy)]
pub(crate) struct Run {
    /// How many bits are below them.
    pub(crate) low: u8,
    /// The number that they are.
    pub(crate) top: u32,
    /// The lowest address that has them.
    pub(crate) base: u32,
}

/// How many low bits two numbers may differ in, at least `least`, where they agree above `k` bits.
fn shared(a: u32, b: u32, k: u8, least: u8) -> u8
    requires bits { k ≤ 32 }
    requires agree { a / 2 ^ k ≡ b / 2 ^ k }
    ensures below { result ≤ k }
    ensures agree { a / 2 ^ result ≡ b / 2 ^ result }
{
    if k <= least || a >> (k - 1) != b >> (k - 1) {
        return k;
    }
    shared(a, b, k - 1, least)
}

/// How many low bits two numbers of so many bits may differ in. The two lowest stand apart from the others.
fn shared_bits(a: u32, b: u32, bits: u8) -> u8
    requires bits { bits ≤ 32 }
    requires a_fits { a < 2 ^ bits }
    requires b_fits { b < 2 ^ bits }
    ensures below { result ≤ bits }
    ensures agree { a / 2 ^ result ≡ b / 2 ^ result }
{
    let least = if bits > 2 { 2 } else { 0 };
    shared(a, b, bits, least)
}

/// The upper bits that the words of a range share, if there are any.
pub(crate) fn shared_run(words: &[u32], base: u32, bits: u8) -> Option<Run>
    requires some { 0 < length words.now }
    requires rising { IsStrictlyIncreasing words.now }
    requires within { AreWithin base bits words.now }
    requires bits { bits ≤ 32 }
    requires room { base + 2 ^ bits ≤ 2 ^ 32 }
    ensures { IfSome result (IsRun words.now base bits) }
{
    let first = words[0] - base;
    let last = words[words.len() - 1] - base;
    let low = shared_bits(first, last, bits);
    if low == bits {
        return None;
    }
    let top = first >> low;
    let base = base + (top << low);
    Some(Run { low, top, base })
}

/// Whether words stand at `base` and each `step` above the one before.
fn are_even(words: &[u32], base: u32, step: u64) -> bool
    requires small { step ≤ 2 ^ 32 }
    requires few { length words.now ≤ 65536 }
    ensures { result ≡ true → (i : ℕ) → i < length words.now → get_or words.now i 0 ≡ base + i * step }
{
    for i in 0..words.len() {
        if u64::from(words[i]) != u64::from(base) + (i as u64) * step {
            return false;
        }
    }
    true
}

/// How many upper bits of a range of 2 ^ bits addresses tell its words apart, where each number that they can be is that of one
/// word, and the number of the first word is a multiple of their count.
pub(crate) fn evenly_spaced(words: &[u32], first: u32, base: u32, bits: u8) -> Option<u8>
    requires bits { bits ≤ 32 }
    requires few { length words.now ≤ 65536 }
    ensures { IfSome result (IsEven words.now first base bits) }
{
    let count = words.len();
    let index = count.trailing_zeros() as u8;
    if index == 0 || index > bits {
        return None;
    }
    if count != 1 << index || first as usize % count != 0 {
        return None;
    }
    if are_even(words, base, 1 << (bits - index)) {
        Some(index)
    } else {
        None
    }
}
