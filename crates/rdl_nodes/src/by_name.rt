//! Which nodes of a body have a name.

use rb_base::NoMemory;
use std::alloc::Global;
use std::collections::BTreeMap;

/// Nodes under names, those of one name in the order in which they were put in.
#[derive(Drop)]
pub(crate) struct ByName<'a> {
    nodes: BTreeMap<&'a [u8], Vec<u32>>,
}

impl<'a> ByName<'a> {
    ghost use Rattle.std.specs.Prelude.{◌≡◌, ◌++◌, ◌∷◌, [], ℕ, List, false, IfOk, OnOk, bytes_eq, cond};
    ghost use Rattle.rdl_nodes.specs.Keyed.{named};

    /// No nodes yet.
    pub fn new(alloc: Global) -> Self
        ensures { (n : List ℕ) → named result n ≡ [] }
    {
        ByName {
            nodes: BTreeMap::new(alloc),
        }
    }

    /// The nodes that have this name.
    pub fn all<'s>(&'s self, name: &'s [u8]) -> &'s [u32]
        ensures { result.now ≡ named self.now name.now }
    {
        match self.nodes.get(name) {
            Some(list) => list,
            None => &[],
        }
    }

    // Takes the nodes of a name out.
    fn take(&mut self, alloc: Global, name: &'a [u8]) -> Result<Vec<u32>, NoMemory>
        ensures others { OnOk result ((n : List ℕ) → bytes_eq name.now n ≡ false → named self.new n ≡ named self.old n) }
        ensures taken { IfOk result (λ r. r.items ≡ named self.old name.now) }
    {
        match self.nodes.insert(name, Vec::new(alloc))? {
            Some(list) => Ok(list),
            None => Ok(Vec::new(alloc)),
        }
    }

    /// Puts a node behind those of the same name.
    pub fn put(&mut self, alloc: Global, name: &'a [u8], node: u32) -> Result<(), NoMemory>
        ensures { OnOk result ((n : List ℕ) → named self.new n ≡ named self.old n ++ cond (bytes_eq name.now n) (node ∷ []) []) }
    {
        let mut list = self.take(alloc, name)?;
        list.push(node)?;
        self.nodes.insert(name, list)?;
        Ok(())
    }
}
