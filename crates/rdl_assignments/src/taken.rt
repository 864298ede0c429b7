//! The properties that are assigned already.

use rb_base::{NoMemory, Place};
use rdl_base::Rule;
use rdl_failures::Failures;
use rdl_layers::is_related;
use rdl_props::Prop;
use std::alloc::Global;

/// The properties that the assignments of one layer assign, as far as they have been read, each once.
#[derive(Drop)]
pub struct AssignedProps {
    props: Vec<Prop>,
}

impl AssignedProps {
    ghost use Rattle.std.specs.Prelude.{◌≡◌, [], ◌∷◌, ◌++◌, List, not, ◌&&◌, IfOk, OnOk};
    ghost use Rattle.std.specs.List.{list_any};
    ghost use Rattle.rdl_props.specs.Same.{same_prop};
    ghost use Rattle.rdl_props.specs.declared.prop.Prop.{Prop as AnyProp};
    ghost use Rattle.rdl_failures.specs.Noted.{IsNoted};
    ghost use Rattle.rdl_layers.specs.Judged.{against};
    ghost use Rattle.rdl_layers.specs.Ranks as ranks;
    ghost use Rattle.rdl_assignments.specs.Taken.{AreTaken};

    /// None yet.
    pub fn new(alloc: Global) -> Self
        ensures { AreTaken result [] }
    {
        AssignedProps {
            props: Vec::new(alloc),
        }
    }

    /// Whether the property is one of them.
    pub(crate) fn has(&self, prop: Prop) -> bool
        ensures { result ≡ list_any (same_prop prop) self.now.props.items }
    {
        self.props.iter().any(|other| prop == *other)
    }

    // Whether another property of its group is one of them.
    fn has_rival(&self, prop: Prop) -> bool
        ensures { result ≡ list_any (λ q. ranks.is_related prop q && not (same_prop prop q)) self.now.props.items }
    {
        self.props
            .iter()
            .any(|other| is_related(prop, *other) & (prop != *other))
    }

    /// Puts in P4 where the property is assigned already, and P5 where one that excludes it is. It answers whether neither is.
    pub fn judge(&self, prop: Prop, place: Place, failures: &mut Failures) -> Result<bool, NoMemory>
        ensures { IfOk result (λ clean. (earlier : List AnyProp) → AreTaken self.now earlier → IsNoted (against earlier place prop) clean failures.old failures.new) }
    {
        let fresh = failures.note(self.has(prop), Rule::P4, place)?;
        let alone = failures.note(self.has_rival(prop), Rule::P5, place)?;
        Ok(fresh & alone)
    }

    /// Puts the property behind the others.
    pub fn add(&mut self, prop: Prop) -> Result<(), NoMemory>
        ensures { OnOk result ((earlier : List AnyProp) → AreTaken self.old earlier → AreTaken self.new (earlier ++ (prop ∷ []))) }
    {
        if self.has(prop) {
            return Ok(());
        }
        self.props.push(prop)?;
        Ok(())
    }
}
