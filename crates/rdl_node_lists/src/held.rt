//! Nodes in the bodies of others, and what they are looked up by.

use rdl_tree::Node;
use std::cmp::Ordering;

/// A node, and the number of the body that it is in.
#[derive(Clone, Copy)]
pub struct Held<'a> {
    pub body: u32,
    pub node: &'a Node<'a>,
}

/// What nodes are looked up by.
#[derive(Clone, Copy)]
pub enum By {
    /// Their bodies and names, whichever indices they have.
    Name,
    /// Their bodies, names and indices.
    Element,
}

impl<'a> Held<'a> {
    ghost use Rattle.std.specs.Prelude.{◌≡◌};
    ghost use Rattle.rdl_node_lists.specs.Keys.{index_by, key_cmp, key_of};

    /// The indices that count.
    pub(crate) fn index(&self, by: By) -> &'a [u64]
        ensures { result.now ≡ index_by by self.now }
    {
        match by {
            By::Name => &[],
            By::Element => self.node.index,
        }
    }

    /// How the node's key compares with another.
    pub(crate) fn compare(&self, by: By, body: u32, name: &[u8], index: &[u64]) -> Ordering
        ensures { result ≡ key_cmp (key_of by self.now) (record { body = body; name = name.now; index = index.now }) }
    {
        let bodies = self.body.cmp(&body);
        if bodies.is_ne() {
            return bodies;
        }
        let names = self.node.name.cmp(name);
        if names.is_ne() {
            return names;
        }
        self.index(by).cmp(index)
    }
}
