//! Places as a map keeps them.

ghost use Rattle.std.specs.Prelude.{◌≡◌, IfOk, length};
ghost use Rattle.rdl_place.specs.Kept as kept;
ghost use Rattle.rdl_place.specs.Kept.{AreAreas};

use rb_base::NoMemory;
use rdl_addr::Area;
use rdl_sizes::Measure;
use std::alloc::Global;

/// The number where 64 bits hold it, else 0.
fn narrow(number: u128) -> u64
    ensures { result ≡ kept.narrow number }
{
    if number < 1 << 64 { number as u64 } else { 0 }
}

fn area(address: u128, size: u128) -> Area
    ensures { result ≡ kept.area address size }
{
    Area {
        address: narrow(address),
        size: narrow(size),
    }
}

/// Addresses and sizes, node by node.
pub(crate) fn areas(
    alloc: Global,
    addresses: &[u128],
    measures: &[Measure],
) -> Result<Vec<Area>, NoMemory>
    requires { length addresses.now ≡ length measures.now }
    ensures { IfOk result (λ ss. AreAreas addresses.now measures.now ss.items) }
{
    let mut areas = Vec::new(alloc);
    for at in 0..addresses.len() {
        let address = addresses[at];
        let measure = measures[at];
        let next = area(address, measure.size);
        areas.push(next)?;
    }
    Ok(areas)
}
