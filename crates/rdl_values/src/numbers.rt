//! Arithmetic of whole numbers whose result may be out of the range 0 to 2^64 - 1.

ghost use Rattle.std.specs.Prelude.{◌≡◌, ◌*◌, ◌/◌, ◌^◌, ◌<◌, SomeIff};

/// `m` to the power `n`, where it is below 2^64. Anything to the power 0 is 1.
pub fn power(m: u64, n: u64) -> Option<u64>
    ensures { SomeIff result (m ^ n < 2 ^ 64) (m ^ n) }
{
    if n < 64 {
        m.checked_pow(n as u32)
    } else if m < 2 {
        Some(m)
    } else {
        None
    }
}

/// `m` times 2 to the power `n`, where it is below 2^64.
pub fn shifted_left(m: u64, n: u64) -> Option<u64>
    ensures { SomeIff result (m * 2 ^ n < 2 ^ 64) (m * 2 ^ n) }
{
    if m == 0 {
        return Some(0);
    }
    m.checked_mul(power(2, n)?)
}

/// `m` divided by 2 to the power `n`, rounded down.
pub fn shifted_right(m: u64, n: u64) -> u64
    ensures { result ≡ m / 2 ^ n }
{
    if n < 64 { m >> n } else { 0 }
}
