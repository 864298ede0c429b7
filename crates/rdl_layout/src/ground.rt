//! Who has which position.

ghost use Rattle.std.specs.Prelude.{◌≡◌, ◌+◌, ◌<◌, ◌^◌, ◌↔◌, ℕ, IfOk, IsTrue, None, OnOk, true};
ghost use Rattle.rdl_layout.specs.Extents as spec;
ghost use Rattle.rdl_layout.specs.Ground.{tenant_at};

use crate::extent::{Extent, Side, Tenant};
use rb_base::NoMemory;
use std::alloc::Global;
use std::collections::BTreeMap;

/// For each position that somebody has the tenants that have it, as one.
#[derive(Drop)]
pub(crate) struct Ground {
    pub tenants: BTreeMap<u128, Tenant>,
}

/// The tenants of a position with one more, as one: all alike, or one that shares with none.
fn joined(there: Option<Tenant>, tenant: Tenant) -> Tenant
    ensures { result ≡ spec.joined there tenant }
{
    let Some(old) = there else {
        return tenant;
    };
    if old.is_alike(&tenant) {
        old
    } else {
        Tenant {
            form: old.form,
            side: Side::Other,
        }
    }
}

impl Ground {
    ghost use Rattle.std.specs.Prelude.{◌≡◌, ◌+◌, ◌<◌, ◌^◌, ◌↔◌, ℕ, IsTrue, None, OnOk, true};
    ghost use Rattle.rdl_layout.specs.Extents as spec;
    ghost use Rattle.rdl_layout.specs.Ground.{tenant_at};

    /// Nobody has any.
    pub fn new(alloc: Global) -> Ground
        ensures { (p : ℕ) → tenant_at result p ≡ None }
    {
        Ground {
            tenants: BTreeMap::new(alloc),
        }
    }

    /// The tenants of a position, as one.
    fn tenant(&self, position: u128) -> Option<Tenant>
        ensures { result ≡ tenant_at self.now position }
    {
        self.tenants.get(&position).copied()
    }

    /// Whether somebody has a position of the extent and may not share it.
    pub fn bars(&self, extent: &Extent) -> bool
        requires { extent.now.first + extent.now.length < 2 ^ 128 }
        ensures { IsTrue result ↔ ((p : ℕ) × (spec.covers extent.now p ≡ true) × (spec.bars extent.now.tenant (tenant_at self.now p) ≡ true)) }
    {
        for offset in 0..extent.length {
            let position = extent.first + u128::from(offset);
            if let Some(there) = self.tenant(position) {
                if !extent.tenant.may_share(&there) {
                    return true;
                }
            }
        }
        false
    }

    /// Gives the extent's positions to its tenant as well.
    pub fn add(&mut self, extent: &Extent) -> Result<(), NoMemory>
        requires { extent.now.first + extent.now.length < 2 ^ 128 }
        ensures { OnOk result ((p : ℕ) → tenant_at self.new p ≡ spec.stepped p (tenant_at self.old p) extent.now) }
    {
        for offset in 0..extent.length {
            let position = extent.first + u128::from(offset);
            let there = self.tenant(position);
            self.tenants.insert(position, joined(there, extent.tenant))?;
        }
        Ok(())
    }
}
