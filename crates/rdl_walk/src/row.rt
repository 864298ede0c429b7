//! How many elements an array has, and the indices of each.

ghost use Rattle.std.specs.Prelude.{◌≡◌, ◌<◌, ◌≤◌, ◌-◌, ◌^◌, ℕ, List, [], ◌∷◌, map, min, length, IfOk};
ghost use Rattle.rdl_values.specs.Paths.{joined};
ghost use Rattle.rdl_values.specs.Rows.{product, row};

use bumpalo::Bump;
use bumpalo::collections::into_bump_slice;
use rb_base::NoMemory;

// How many elements there are, or 2^64 - 1 where there are more.
fn size_of(dims: &[u64]) -> u64
    ensures { result ≡ min (product dims.now) (2 ^ 64 - 1) }
{
    let mut size: u64 = 1;
    for dim in dims {
        size = size.saturating_mul(*dim);
    }
    size
}

/// How many elements an array of these dimensions has, counted no further than `most`, which is below 2^64.
pub fn count_of(dims: &[u64], most: u64) -> u64
    ensures { result ≡ min (product dims.now) most }
{
    size_of(dims).min(most)
}

/// The indices of element `number`, the last index fastest. The text of no element's path is longer than that of the last one's.
pub fn row_of<'a>(arena: &'a Bump, dims: &[u64], number: u64) -> Result<&'a [u64], NoMemory>
    requires within { number < product dims.now }
    requires small { number < 2 ^ 64 - 1 }
    ensures row { IfOk result (λ r. r.now ≡ row dims.now number) }
    ensures short { IfOk result (λ r. (name : List ℕ) → length (joined (record { name = name; index = r.now } ∷ [])) ≤ length (joined (record { name = name; index = map (λ d. d - 1) dims.now } ∷ []))) }
{
    let mut index = Vec::with_capacity(arena, dims.len())?;
    let mut left = number;
    for at in 0..dims.len() {
        let below = size_of(&dims[at + 1..]);
        index.push(left / below)?;
        left %= below;
    }
    Ok(into_bump_slice(index))
}
