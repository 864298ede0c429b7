//! The bits of numbers. Bit 0 is the least.
ghost use Rattle.std.specs.Prelude.{◌≡◌, ◌+◌, ◌-◌, ◌^◌, ◌<◌, ◌≤◌};
ghost use Rattle.rb_base.specs.Bits.{ones, part, put};

/// The greatest number of `w` bits, at most 128.
pub fn ones(w: u8) -> u128
    requires { w ≤ 128 }
    ensures { result ≡ ones w }
{
    if w == 128 {
        u128::MAX
    } else {
        (1u128 << w) - 1
    }
}

/// The number that the bits `hi` to `lo` of `v` make.
pub fn part(v: u128, hi: u8, lo: u8) -> u128
    requires ordered { lo ≤ hi }
    requires within { hi < 128 }
    ensures { result ≡ part v hi lo }
{
    (v >> lo) & ones(hi - lo + 1)
}

/// The number `v` with `x` in place of its bits `hi` to `lo`.
pub fn put(v: u128, hi: u8, lo: u8, x: u128) -> u128
    requires ordered { lo ≤ hi }
    requires within { hi < 128 }
    requires fits { x < 2 ^ (hi - lo + 1) }
    ensures { result ≡ put v hi lo x }
{
    let mask = ones(hi - lo + 1) << lo;
    (v & !mask) | (x << lo)
}
