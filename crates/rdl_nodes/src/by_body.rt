//! Which nodes stand under a body and a name.

use crate::by_name::ByName;
use rb_base::NoMemory;
use std::alloc::Global;
use std::collections::BTreeMap;

/// Nodes under bodies and names, those under the same in the order in which they were put in.
#[derive(Drop)]
pub(crate) struct ByBody<'a> {
    names: BTreeMap<u32, ByName<'a>>,
}

impl<'a> ByBody<'a> {
    ghost use Rattle.std.specs.Prelude.{◌≡◌, ◌++◌, ◌∷◌, ◌&&◌, ◌==◌, [], ℕ, List, false, IfOk, OnOk, bytes_eq, cond};
    ghost use Rattle.rdl_nodes.specs.Keyed.{in_body, named};

    /// No nodes yet.
    pub fn new(alloc: Global) -> Self
        ensures { (b : ℕ) (n : List ℕ) → in_body result b n ≡ [] }
    {
        ByBody {
            names: BTreeMap::new(alloc),
        }
    }

    /// The nodes in a body that have this name.
    pub fn all<'s>(&'s self, body: u32, name: &'s [u8]) -> &'s [u32]
        ensures { result.now ≡ in_body self.now body name.now }
    {
        match self.names.get(&body) {
            Some(names) => names.all(name),
            None => &[],
        }
    }

    // Takes the nodes in a body out.
    fn take(&mut self, alloc: Global, body: u32) -> Result<ByName<'a>, NoMemory>
        ensures others { OnOk result ((b : ℕ) (n : List ℕ) → (body == b) ≡ false → in_body self.new b n ≡ in_body self.old b n) }
        ensures taken { IfOk result (λ r. (n : List ℕ) → named r n ≡ in_body self.old body n) }
    {
        match self.names.insert(body, ByName::new(alloc))? {
            Some(names) => Ok(names),
            None => Ok(ByName::new(alloc)),
        }
    }

    /// Puts a node behind those in the same body that have the same name.
    pub fn put(
        &mut self,
        alloc: Global,
        body: u32,
        name: &'a [u8],
        node: u32,
    ) -> Result<(), NoMemory>
        ensures { OnOk result ((b : ℕ) (n : List ℕ) → in_body self.new b n ≡ in_body self.old b n ++ cond (body == b && bytes_eq name.now n) (node ∷ []) []) }
    {
        let mut names = self.take(alloc, body)?;
        names.put(alloc, name, node)?;
        self.names.insert(body, names)?;
        Ok(())
    }
}
