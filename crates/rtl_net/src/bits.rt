//! Numbers of a width in bits (1 to 128).

ghost use Rattle.std.specs.Prelude.{◌≡◌, ℕ, ◌+◌, ◌-◌, ◌*◌, ◌%◌, ◌^◌, ◌<◌, ◌≤◌, ◌==◌, nat_lt, if◌then◌else◌, count_ones};
ghost use Rattle.rb_base.specs.Bits.{ones as ones_of, part as part_of};

/// The greatest number of the width.
pub(crate) fn ones(width: u8) -> u128
    requires { width ≤ 128 }
    ensures { result ≡ ones_of width }
{
    if width == 128 {
        return u128::MAX;
    }
    (1 << width) - 1
}

/// The number that the bits `hi` to `lo` make.
pub(crate) fn part(value: u128, hi: u8, lo: u8) -> u128
    requires order { lo ≤ hi }
    requires within { hi < 128 }
    ensures { result ≡ part_of value hi lo }
{
    (value >> lo) & ones(hi - lo + 1)
}

/// The number with `high` above the `width` bits of `low`.
pub(crate) fn joined(high: u128, low: u128, width: u8) -> u128
    requires width { width < 128 }
    requires fits { high * 2 ^ width + low < 2 ^ 128 }
    ensures { result ≡ high * 2 ^ width + low }
{
    high * (1 << width) + low
}

/// The sum modulo the width.
pub(crate) fn sum(a: u128, b: u128, width: u8) -> u128
    requires width { width ≤ 128 }
    requires a_fits { a < 2 ^ width }
    requires b_fits { b < 2 ^ width }
    ensures { result ≡ (a + b) % 2 ^ width }
{
    let room = ones(width) - a;
    if b <= room { a + b } else { b - room - 1 }
}

/// The difference modulo the width.
pub(crate) fn difference(a: u128, b: u128, width: u8) -> u128
    requires width { width ≤ 128 }
    requires a_fits { a < 2 ^ width }
    requires b_fits { b < 2 ^ width }
    ensures { result ≡ (a + 2 ^ width - b) % 2 ^ width }
{
    if b <= a {
        a - b
    } else {
        ones(width) - (b - a - 1)
    }
}

/// Whether an odd number of bits is 1.
pub(crate) fn odd(value: u128) -> u128
    ensures { result ≡ count_ones value % 2 }
{
    u128::from(value.count_ones() % 2)
}
