//! Which nodes stand under a body, a name and indices.

use crate::by_body::ByBody;
use rb_base::NoMemory;
use std::alloc::Global;
use std::collections::BTreeMap;

/// Nodes under bodies, names and indices, those under the same in the order in which they were put in. A source chooses the names and
/// indices, so they are looked up in order: by a hash it could choose such as collide.
#[derive(Drop)]
pub struct NodeIndex<'a> {
    bodies: BTreeMap<&'a [u64], ByBody<'a>>,
}

impl<'a> NodeIndex<'a> {
    ghost use Rattle.std.specs.Prelude.{◌≡◌, ◌++◌, ◌∷◌, [], ℕ, List, false, IfOk, OnOk, bytes_eq, cond};
    ghost use Rattle.rdl_nodes.specs.Keyed.{Key, first_under, in_body, nodes_under, same_key};

    /// No nodes yet.
    pub fn new(alloc: Global) -> Self
        ensures { (k : Key) → nodes_under result k ≡ [] }
    {
        NodeIndex {
            bodies: BTreeMap::new(alloc),
        }
    }

    /// The nodes in a body that have this name and these indices.
    pub fn all<'s>(&'s self, body: u32, name: &'s [u8], index: &'s [u64]) -> &'s [u32]
        ensures { result.now ≡ nodes_under self.now (record { body = body; name = name.now; index = index.now }) }
    {
        match self.bodies.get(index) {
            Some(bodies) => bodies.all(body, name),
            None => &[],
        }
    }

    /// The first of them.
    pub fn first(&self, body: u32, name: &[u8], index: &[u64]) -> Option<u32>
        ensures { result ≡ first_under self.now (record { body = body; name = name.now; index = index.now }) }
    {
        self.all(body, name, index).first().copied()
    }

    // Takes the nodes with these indices out.
    fn take(&mut self, alloc: Global, index: &'a [u64]) -> Result<ByBody<'a>, NoMemory>
        ensures others { OnOk result ((k : Key) → bytes_eq index.now k.index ≡ false → nodes_under self.new k ≡ nodes_under self.old k) }
        ensures taken { IfOk result (λ r. (b : ℕ) (n : List ℕ) → in_body r b n ≡ nodes_under self.old (record { body = b; name = n; index = index.now })) }
    {
        match self.bodies.insert(index, ByBody::new(alloc))? {
            Some(bodies) => Ok(bodies),
            None => Ok(ByBody::new(alloc)),
        }
    }

    /// Puts a node behind those under the same key.
    pub fn put(
        &mut self,
        alloc: Global,
        body: u32,
        name: &'a [u8],
        index: &'a [u64],
        node: u32,
    ) -> Result<(), NoMemory>
        ensures { OnOk result ((k : Key) → nodes_under self.new k ≡ nodes_under self.old k ++ cond (same_key (record { body = body; name = name.now; index = index.now }) k) (node ∷ []) []) }
    {
        let mut bodies = self.take(alloc, index)?;
        bodies.put(alloc, body, name, node)?;
        self.bodies.insert(index, bodies)?;
        Ok(())
    }
}
