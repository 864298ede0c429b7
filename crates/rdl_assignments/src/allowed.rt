//! Where assignments stand.

ghost use Rattle.std.specs.Prelude.{◌≡◌};
ghost use Rattle.rdl_layers.specs.Judged.{legal_on_entry};
ghost use Rattle.rdl_assignments.specs.Allowed.{is_allowed};

use rdl_props::{Prop, legal};
use rdl_tree::Kind;

/// Where an assignment stands, which decides what is legal there.
#[derive(Clone, Copy, Debug)]
pub enum Allowed {
    /// On a component of this kind.
    On(Kind),
    /// As a default: any property is legal.
    Anywhere,
    /// On an entry of an enumeration: a name and a description.
    OnEntry,
}

// Whether an entry of an enumeration takes the property.
fn legal_entry(prop: Prop) -> bool
    ensures { result ≡ legal_on_entry prop }
{
    match prop {
        Prop::Name | Prop::Desc => true,
        _ => false,
    }
}

impl Allowed {
    /// Whether the property is legal there.
    pub fn allows(self, prop: Prop) -> bool
        ensures { result ≡ is_allowed self prop }
    {
        match self {
            Allowed::On(kind) => legal(prop, kind),
            Allowed::Anywhere => true,
            Allowed::OnEntry => legal_entry(prop),
        }
    }
}
