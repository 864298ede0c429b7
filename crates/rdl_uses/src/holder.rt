//! Where the uses of a body stand.

ghost use Rattle.std.specs.Prelude.{◌≡◌};
ghost use Rattle.rdl_values.specs.NoNode as spec;

use crate::standing::Standing;
use rdl_tree::Kind;

/// What holds the uses of a body: the root, or a node of a kind.
#[derive(Clone, Copy, Debug)]
pub enum Holder {
    Root,
    Node(Kind),
}

/// Where the uses of a body stand.
#[derive(Clone, Copy, Debug)]
pub struct Parent {
    pub holder: Holder,
    pub standing: Standing,
}

// Whether a node of a kind holds those of another one (SystemRDL 2.0, 5.1.2).
fn holds(outer: Kind, kind: Kind) -> bool
    ensures { result ≡ spec.holds outer kind }
{
    match outer {
        Kind::Addrmap => kind != Kind::Field,
        Kind::Regfile => matches!(kind, Kind::Regfile | Kind::Reg | Kind::Signal),
        Kind::Reg => matches!(kind, Kind::Field | Kind::Signal),
        Kind::Field | Kind::Signal => false,
    }
}

impl Holder {
    ghost use Rattle.std.specs.Prelude.{◌≡◌};
    ghost use Rattle.rdl_values.specs.Paths.{Parent as ParentOf};
    ghost use Rattle.rdl_uses.specs.Placed.{IsHolder};

    /// Whether it may hold nodes of a kind; the root holds signals.
    pub(crate) fn may_hold(self, kind: Kind) -> bool
        ensures { (p : ParentOf) → IsHolder self p → result ≡ spec.may_hold p kind }
    {
        match self {
            Holder::Root => kind == Kind::Signal,
            Holder::Node(outer) => holds(outer, kind),
        }
    }
}
