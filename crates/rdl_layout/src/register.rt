//! The rules on the addresses of registers.

ghost use Rattle.std.specs.Prelude.{◌≡◌, ◌+◌, ◌++◌, ◌<◌, ◌^◌, IfOk, OnOk, flat_map, map};
ghost use Rattle.std.specs.List.{All};
ghost use Rattle.rdl_layout.specs.Registers as spec;

use crate::claim::{Claim, clashing};
use crate::extent::{Extent, Form, Side, Tenant};
use rb_base::{NoMemory, Place};
use rdl_base::{Fault, Rule};
use std::alloc::Global;

/// A register where it stands: its place in the source, its address and size in bytes, its widths in bits, and what software
/// does with its fields.
#[derive(Clone, Copy, Debug, PartialEq, Eq)]
pub struct Register {
    pub place: Place,
    pub address: u128,
    pub size: u64,
    pub regwidth: u64,
    pub accesswidth: u64,
    pub side: Side,
}

impl Register {
    ghost use Rattle.std.specs.Prelude.{◌≡◌, ◌<◌, ◌^◌, ◌+◌};
    ghost use Rattle.rdl_layout.specs.Registers as spec;

    /// Whether its address is no multiple of its access width.
    fn is_misaligned(&self) -> bool
        requires { 7 < self.now.accesswidth }
        ensures { result ≡ spec.is_misaligned self.now }
    {
        let width = u128::from(self.accesswidth / 8);
        !(self.address % width == 0)
    }

    /// Whether it ends above 2^32.
    fn is_too_large(&self) -> bool
        requires { self.now.address + self.now.size < 2 ^ 128 }
        ensures { result ≡ spec.is_too_large self.now }
    {
        1 << 32 < self.address + u128::from(self.size)
    }

    /// Its bytes, and who has them.
    fn claim(&self) -> Claim
        ensures { result ≡ spec.claim_of self.now }
    {
        Claim {
            place: self.place,
            extent: Extent {
                first: self.address,
                length: self.size,
                tenant: Tenant {
                    form: Form {
                        address: self.address,
                        regwidth: self.regwidth,
                        accesswidth: self.accesswidth,
                    },
                    side: self.side,
                },
            },
        }
    }
}

/// Adds the failures of A3.
fn add_misaligned(faults: &mut Vec<Fault>, registers: &[Register]) -> Result<(), NoMemory>
    requires { All spec.IsFit registers.now }
    ensures { OnOk result (faults.new.items ≡ faults.old.items ++ flat_map spec.misaligned registers.now) }
{
    for register in registers {
        if register.is_misaligned() {
            faults.push(Fault {
                place: register.place,
                rule: Rule::A3,
            })?;
        }
    }
    Ok(())
}

/// Adds the failures of A4.
fn add_too_large(faults: &mut Vec<Fault>, registers: &[Register]) -> Result<(), NoMemory>
    requires { All spec.IsFit registers.now }
    ensures { OnOk result (faults.new.items ≡ faults.old.items ++ flat_map spec.too_large registers.now) }
{
    for register in registers {
        if register.is_too_large() {
            faults.push(Fault {
                place: register.place,
                rule: Rule::A4,
            })?;
        }
    }
    Ok(())
}

/// The bytes of each register, and who has them.
fn claims_of(alloc: Global, registers: &[Register]) -> Result<Vec<Claim>, NoMemory>
    ensures { IfOk result (λ cs. cs.items ≡ map spec.claim_of registers.now) }
{
    let mut claims = Vec::new(alloc);
    for register in registers {
        claims.push(register.claim())?;
    }
    Ok(claims)
}

/// The failures of A3 to A6 of all registers, of which those of A6 stand at the top's place. The only error is want of memory.
pub fn register_faults(
    alloc: Global,
    top: Place,
    registers: &[Register],
) -> Result<Vec<Fault>, NoMemory>
    requires { All spec.IsFit registers.now }
    ensures { IfOk result (λ fs. fs.items ≡ spec.faults top registers.now) }
{
    let mut faults = clashing(alloc, Rule::A5, &claims_of(alloc, registers)?)?;
    add_misaligned(&mut faults, registers)?;
    add_too_large(&mut faults, registers)?;
    if registers.len() > 8192 {
        faults.push(Fault {
            place: top,
            rule: Rule::A6,
        })?;
    }
    Ok(faults)
}
