//! Which bits the fields of a register have, and the rules on them.

ghost use Rattle.std.specs.Prelude.{◌≡◌, ◌+◌, ◌++◌, ◌<◌, ◌≤◌, ◌^◌, IfOk, IfSome, OnOk, flat_map, map};
ghost use Rattle.std.specs.List.{All};
ghost use Rattle.rdl_layout.specs.Fields as spec;

use crate::claim::{Claim, clashing};
use crate::extent::{Extent, Form, Side, Tenant};
use rb_base::{NoMemory, Place};
use rdl_base::{Fault, Rule};
use std::alloc::Global;

/// A field: its place in the source, its range, high bit first, or else its width, and what software does with it.
#[derive(Clone, Copy, Debug, PartialEq, Eq)]
pub struct Field {
    pub place: Place,
    pub range: Option<(u64, u64)>,
    pub width: u64,
    pub side: Side,
}

/// A field's high and low bit in its register.
#[derive(Clone, Copy, Debug, PartialEq, Eq)]
pub struct FieldBits {
    pub place: Place,
    pub high: u128,
    pub low: u128,
    pub side: Side,
}

impl Field {
    ghost use Rattle.std.specs.Prelude.{◌≡◌, ◌+◌, ◌<◌, ◌≤◌, ◌^◌, IfNone, IfSome, None};
    ghost use Rattle.rdl_layout.specs.Fields as spec;

    /// Its bits: its range, else as many bits as it is wide from this one on. None where those would end at or above 2^128.
    fn bits_at(self, next: u128) -> Option<FieldBits>
        requires { spec.IsFit self }
        ensures bits { IfSome result (λ b. b ≡ spec.bits_at next self) }
        ensures below { IfSome result (λ b. b.high + 1 < 2 ^ 128) }
        ensures none { IfNone result ((self.range ≡ None) × (2 ^ 128 ≤ next + self.width)) }
    {
        let (high, low) = match self.range {
            Some((high, low)) => (u128::from(high), u128::from(low)),
            None => (next.checked_add(u128::from(self.width))? - 1, next),
        };
        Some(FieldBits {
            place: self.place,
            high,
            low,
            side: self.side,
        })
    }
}

impl FieldBits {
    ghost use Rattle.std.specs.Prelude.{◌≡◌};
    ghost use Rattle.rdl_layout.specs.Fields as spec;

    /// Its bits, and who has them. All fields of a register have one form.
    fn claim(self) -> Claim
        requires { spec.IsSpan self }
        ensures { result ≡ spec.claim_of self }
    {
        Claim {
            place: self.place,
            extent: Extent {
                first: self.low,
                length: (self.high - self.low) as u64 + 1,
                tenant: Tenant {
                    form: Form {
                        address: 0,
                        regwidth: 0,
                        accesswidth: 0,
                    },
                    side: self.side,
                },
            },
        }
    }
}

/// The bits of the fields of a register, in order: one without a range begins one bit above the one before it
/// (SystemRDL 2.0, 9.1). The only error is want of memory, or a number at or above 2^128.
pub fn bits_of(alloc: Global, fields: &[Field]) -> Result<Vec<FieldBits>, NoMemory>
    requires { All spec.IsFit fields.now }
    ensures { IfOk result (λ bs. bs.items ≡ spec.bits_from 0 fields.now) }
{
    let mut bits = Vec::new(alloc);
    let mut next = 0u128;
    for field in fields {
        let Some(one) = field.bits_at(next) else {
            return Err(NoMemory);
        };
        bits.push(one)?;
        next = one.high + 1;
    }
    Ok(bits)
}

/// Each field's bits, and who has them.
fn claims_of(alloc: Global, bits: &[FieldBits]) -> Result<Vec<Claim>, NoMemory>
    requires { All spec.IsSpan bits.now }
    ensures { IfOk result (λ cs. cs.items ≡ map spec.claim_of bits.now) }
{
    let mut claims = Vec::new(alloc);
    for one in bits {
        claims.push(one.claim())?;
    }
    Ok(claims)
}

/// The failures of B1 and B2 of the fields of a register of this width. The only error is want of memory.
pub fn bit_faults(alloc: Global, regwidth: u64, bits: &[FieldBits]) -> Result<Vec<Fault>, NoMemory>
    requires { All spec.IsSpan bits.now }
    ensures { IfOk result (λ fs. fs.items ≡ spec.faults regwidth bits.now) }
{
    let mut faults = clashing(alloc, Rule::B2, &claims_of(alloc, bits)?)?;
    for one in bits {
        if u128::from(regwidth) <= one.high {
            faults.push(Fault {
                place: one.place,
                rule: Rule::B1,
            })?;
        }
    }
    Ok(faults)
}
