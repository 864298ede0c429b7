//! What fits over values of at most 64 bits at places below 2^32.
ghost use Rattle.std.specs.Prelude.{◌≡◌, ◌+◌, IfOk};

use rb_base::NoMemory;
use sim_lanes::{Bit, Width};
use std::alloc::{AllocError, AllocFailed};

/// Why there is no such thing.
#[derive(Debug, Drop)]
pub(crate) enum Unfit {
    Wide,
    NoMemory(NoMemory),
}

impl From<AllocError> for Unfit {
    fn from(_: AllocError) -> Self {
        Unfit::NoMemory(NoMemory)
    }
}

impl<T: Drop> From<AllocFailed<T>> for Unfit {
    fn from(_: AllocFailed<T>) -> Self {
        Unfit::NoMemory(NoMemory)
    }
}

impl From<NoMemory> for Unfit {
    fn from(refused: NoMemory) -> Self {
        Unfit::NoMemory(refused)
    }
}

/// A number of bits, if it is at most 64.
pub(crate) fn width_of(bits: u8) -> Result<Width, Unfit>
    ensures { IfOk result (λ w. w.bits ≡ bits) }
{
    if bits <= 64 {
        Ok(Width { bits })
    } else {
        Err(Unfit::Wide)
    }
}

/// The number of a bit, if it is one of 64.
pub(crate) fn bit_of(bits: u8) -> Result<Bit, Unfit>
    ensures { IfOk result (λ w. w.bits ≡ bits) }
{
    if bits < 64 {
        Ok(Bit { bits })
    } else {
        Err(Unfit::Wide)
    }
}

/// A place, if it is below 2^32.
pub(crate) fn place_of(place: usize) -> Result<u32, Unfit>
    ensures { IfOk result (λ p. p ≡ place) }
{
    if place < 1 << 32 {
        Ok(place as u32)
    } else {
        Err(Unfit::Wide)
    }
}

/// A number, if it has at most 64 bits.
pub(crate) fn number_of(number: u128) -> Result<u64, Unfit>
    ensures { IfOk result (λ n. n ≡ number) }
{
    if number < 1 << 64 {
        Ok(number as u64)
    } else {
        Err(Unfit::Wide)
    }
}

/// The sum of two numbers of places.
pub(crate) fn sum_of(some: usize, more: usize) -> Result<usize, Unfit>
    ensures { IfOk result (λ n. n ≡ some + more) }
{
    match some.checked_add(more) {
        Some(all) => Ok(all),
        None => Err(Unfit::Wide),
    }
}
