//! Ranks of assignments: which of those that apply to a node decides a property (SystemRDL 2.0, 5.1.3).

/// Where an assignment that applies to a node stands. Ranks are ordered, and the least one decides.
#[derive(Clone, Copy, Debug, PartialEq, Eq, PartialOrd, Ord)]
pub enum Rank {
    /// A dynamic assignment in the body of a node `depth` steps below the top: the outermost decides.
    Dynamic { depth: u32 },
    /// The instance's own `= v`, a reset value.
    Instance,
    /// An assignment in the body of the node's definition.
    Body,
    /// A default, in the body `distance` bodies out from the one that the definition's text stands in: the nearest
    /// decides.
    Default { distance: u32 },
    /// The default of the table of properties.
    Table,
}

impl Rank {
    ghost use Rattle.std.specs.Prelude.{◌≡◌};
    ghost use Rattle.rdl_layers.specs.Ranks as spec;

    /// Whether an assignment of this rank decides rather than one of the other.
    pub fn is_before(self, other: Rank) -> bool
        ensures { result ≡ spec.is_before self other }
    {
        self < other
    }
}
