//! How far texts agree.
ghost use Rattle.std.specs.Prelude.{◌≡◌, ◌≤◌, ◌+◌, true, take, drop, length};
ghost use Rattle.std.specs.Int.{w64, to_le_bytes};

/// The eight bytes at a place of a text.
#[inline(always)]
fn word_at(text: &[u8], at: usize) -> u64
    requires { at + 8 ≤ length text.now }
    ensures { to_le_bytes w64 result ≡ take 8 (drop at text.now) }
{
    u64::from_le_bytes([
        text[at],
        text[at + 1],
        text[at + 2],
        text[at + 3],
        text[at + 4],
        text[at + 5],
        text[at + 6],
        text[at + 7],
    ])
}

/// Whether two texts have the same sixteen bytes at a place.
#[inline(always)]
fn are_alike_at(one: &[u8], other: &[u8], at: usize) -> bool
    requires one { at + 16 ≤ length one.now }
    requires other { at + 16 ≤ length other.now }
    ensures { result ≡ true → take 16 (drop at one.now) ≡ take 16 (drop at other.now) }
{
    word_at(one, at) == word_at(other, at) && word_at(one, at + 8) == word_at(other, at + 8)
}

/// How many bytes two texts begin with alike, in sixteens, of at most so many.
fn sixteens_alike(one: &[u8], other: &[u8], most: usize) -> usize
    requires one { most ≤ length one.now }
    requires other { most ≤ length other.now }
    ensures within { result ≤ most }
    ensures alike { take result one.now ≡ take result other.now }
{
    let mut at = 0;
    while most - at >= 16 && are_alike_at(one, other, at) {
        at += 16;
    }
    at
}

/// How many bytes two texts begin with alike, of at most so many. It answers none where these are fewer than sixteen.
pub(crate) fn bytes_alike(one: &[u8], other: &[u8], most: usize) -> usize
    ensures one { result ≤ length one.now }
    ensures other { result ≤ length other.now }
    ensures alike { take result one.now ≡ take result other.now }
{
    let within = most.min(one.len()).min(other.len());
    let mut at = sixteens_alike(one, other, within);
    if at == 0 {
        return 0;
    }
    while at < within && one[at] == other[at] {
        at += 1;
    }
    at
}
