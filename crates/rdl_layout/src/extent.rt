//! Extents and their tenants.

ghost use Rattle.std.specs.Prelude.{◌≡◌};

/// What software does with a tenant, as far as it counts for sharing.
#[derive(Clone, Copy, Debug, PartialEq, Eq)]
pub enum Side {
    /// It only reads.
    Reads,
    /// It only writes.
    Writes,
    /// Anything else.
    Other,
}

impl Side {
    ghost use Rattle.std.specs.Prelude.{◌≡◌};
    ghost use Rattle.rdl_layout.specs.Extents as spec;

    /// Whether software only reads the one and only writes the other.
    pub fn is_opposite(self, other: Side) -> bool
        ensures { result ≡ spec.is_opposite self other }
    {
        match (self, other) {
            (Side::Reads, Side::Writes) | (Side::Writes, Side::Reads) => true,
            _ => false,
        }
    }
}

/// What two registers that share an address have in common: the address, in bytes, and the widths, in bits.
#[derive(Clone, Copy, Debug, PartialEq, Eq)]
pub struct Form {
    pub address: u128,
    pub regwidth: u64,
    pub accesswidth: u64,
}

/// Who has an extent, as far as it counts for sharing.
#[derive(Clone, Copy, Debug, PartialEq, Eq)]
pub struct Tenant {
    pub form: Form,
    pub side: Side,
}

impl Tenant {
    ghost use Rattle.std.specs.Prelude.{◌≡◌};
    ghost use Rattle.rdl_layout.specs.Extents as spec;

    /// Whether the two may share positions: they have one form, and software only reads the one and only writes the other.
    pub fn may_share(&self, other: &Tenant) -> bool
        ensures { result ≡ spec.may_share self.now other.now }
    {
        self.form.address == other.form.address
            && self.form.regwidth == other.form.regwidth
            && self.form.accesswidth == other.form.accesswidth
            && self.side.is_opposite(other.side)
    }

    /// Whether both may share positions with the same tenants.
    pub(crate) fn is_alike(&self, other: &Tenant) -> bool
        ensures { result ≡ spec.is_alike self.now other.now }
    {
        self.form.address == other.form.address
            && self.form.regwidth == other.form.regwidth
            && self.form.accesswidth == other.form.accesswidth
            && self.side == other.side
    }
}

/// So many positions from a first one on, and who has them.
#[derive(Clone, Copy, Debug, PartialEq, Eq)]
pub struct Extent {
    pub first: u128,
    pub length: u64,
    pub tenant: Tenant,
}
