//! Numbers under bodies and names, and indices that are wanted.

use crate::matching::Wanted;
use rb_base::NoMemory;
use rdl_nodes::NodeIndex;
use std::alloc::Global;

/// Numbers under bodies and names, and under bodies, names and indices.
#[derive(Drop)]
pub(crate) struct Notes<'a> {
    pub(crate) names: NodeIndex<'a>,
    pub(crate) elements: NodeIndex<'a>,
}

impl<'a> Notes<'a> {
    ghost use Rattle.std.specs.Prelude.{◌≡◌, ◌∷◌, ◌++◌, ◌&&◌, [], ℕ, List, Bool, OnOk, cond, slice_get};
    ghost use Rattle.rdl_nodes.specs.Keyed.{Key, nodes_under};
    ghost use Rattle.rdl_targets.specs.Noted.{same_turn, under_wanted};
    ghost use Rattle.rdl_targets.specs.declared.matching.Wanted.{Wanted as AnyWanted};

    /// None yet.
    pub(crate) fn new(alloc: Global) -> Self
        ensures names { (k : Key) → nodes_under result.names k ≡ [] }
        ensures elements { (k : Key) → nodes_under result.elements k ≡ [] }
    {
        Notes {
            names: NodeIndex::new(alloc),
            elements: NodeIndex::new(alloc),
        }
    }

    // Those under a body, a name and the indices that are wanted.
    fn all<'s>(&'s self, body: u32, name: &'s [u8], wanted: &'s Wanted) -> &'s [u32]
        ensures { result.now ≡ under_wanted self.now body name.now wanted.now }
    {
        match wanted {
            Wanted::Any => self.names.all(body, name, &[]),
            Wanted::None => &[],
            Wanted::These(numbers) => self.elements.all(body, name, numbers),
        }
    }

    /// The first of them.
    pub(crate) fn first(&self, body: u32, name: &[u8], wanted: &Wanted) -> Option<u32>
        ensures { result ≡ slice_get (under_wanted self.now body name.now wanted.now) 0 }
    {
        self.all(body, name, wanted).first().copied()
    }

    /// Puts a number under a body, a name and the indices that are wanted, where the indices given are these.
    pub(crate) fn keep(
        &mut self,
        alloc: Global,
        body: u32,
        name: &'a [u8],
        wanted: &Wanted,
        index: &'a [u64],
        number: u32,
    ) -> Result<(), NoMemory>
        ensures { OnOk result ((put : Bool) × ((k : ℕ) (n : List ℕ) (w : AnyWanted) → under_wanted self.new k n w ≡ under_wanted self.old k n w ++ cond (put && same_turn body name.now wanted.now k n w) (number ∷ []) [])) }
    {
        let none: &'a [u64] = &[];
        match wanted {
            Wanted::Any => self.names.put(alloc, body, name, none, number),
            Wanted::None => Ok(()),
            Wanted::These(numbers) => {
                if index == numbers.as_slice() {
                    return self.elements.put(alloc, body, name, index, number);
                }
                Ok(())
            }
        }
    }
}
