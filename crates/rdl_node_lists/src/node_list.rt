//! Nodes in the order of what they are looked up by.

ghost use Rattle.std.specs.List.Sorted.{IsSortedByKey};
ghost use Rattle.std.proofs.Props.{props};
ghost use Rattle.rdl_node_lists.specs.Keys.{key_cmp, key_of};

use crate::held::{By, Held};
use rb_base::NoMemory;

/// Nodes in the order of their bodies and names, or of their bodies, names and indices, those with the same in the order in which they
/// were given. A source chooses the names and indices, so they are looked up in order: by a hash it could choose such as collide.
#[derive(Drop)]
pub struct NodeList<'a> {
    by: By,
    held: Vec<Held<'a>>,
    ghost ordered: { IsSortedByKey (key_of by) key_cmp held.items } by { Prim.hlevel props },
}

impl<'a> NodeList<'a> {
    ghost use Rattle.std.specs.Prelude.{◌≡◌, IfOk};
    ghost use Rattle.rdl_nodes.specs.Keyed.{Key};
    ghost use Rattle.rdl_node_lists.specs.Keys.{held_under, numbers};
    ghost use Rattle.rdl_node_lists.specs.Listed.{first_listed, listed_under};

    /// These nodes. The only error is want of memory.
    pub fn of(by: By, nodes: Vec<Held<'a>>) -> Result<Self, NoMemory>
        ensures { IfOk result (λ list. (k : Key) → listed_under list k ≡ held_under by nodes.entry.items k) }
    {
        let mut held = nodes;
        held.sort_by(|one, other| one.compare(by, other.body, other.node.name, other.index(by)))?;
        Ok(NodeList { by, held })
    }

    /// The nodes in a body that have this name and these indices, of which there are none in a list by name.
    pub fn all<'s>(&'s self, body: u32, name: &[u8], index: &[u64]) -> &'s [Held<'a>]
        ensures { numbers result.now ≡ listed_under self.now (record { body = body; name = name.now; index = index.now }) }
    {
        let by = self.by;
        let held = self.held.as_slice();
        let from = held.partition_point(|one| one.compare(by, body, name, index).is_lt());
        let rest = &held[from..];
        let count = rest.partition_point(|one| one.compare(by, body, name, index).is_eq());
        &rest[..count]
    }

    /// The number of the first of them.
    pub fn first(&self, body: u32, name: &[u8], index: &[u64]) -> Option<u32>
        ensures { result ≡ first_listed self.now (record { body = body; name = name.now; index = index.now }) }
    {
        self.all(body, name, index).first().map(|one| one.node.id)
    }
}
