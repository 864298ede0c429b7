//! What is visible in the bodies of nodes.

ghost use Rattle.std.specs.Prelude.{◌≡◌};
ghost use Rattle.rdl_values.specs.Chained.{chained_in};
ghost use Rattle.rdl_layers.specs.NodeNames as spec;

use rdl_values::{Chain, Table};

/// What is visible in the body of each node of a tree, and in the root's: the names of all open bodies, by their numbers, of which the
/// root's is 0.
#[derive(Drop)]
pub struct NodeNames<'a> {
    /// The names of each open body.
    pub tables: Vec<Table<'a>>,
    /// For each open body its own number, and those of the bodies round its definition's text, the nearest first.
    pub numbers: Vec<&'a [usize]>,
    /// For each node the number of its body.
    pub bodies: Vec<usize>,
}

impl<'a> NodeNames<'a> {
    // The number of the body of a node. All others stand for the root.
    fn body_of(&self, node: u32) -> usize
        ensures { result ≡ spec.body_of self.now node }
    {
        match self.bodies.get(node as usize) {
            Some(body) => *body,
            None => 0,
        }
    }

    // The numbers of the bodies that are seen in the body of this number.
    fn numbers_of(&self, body: usize) -> &'a [usize]
        ensures { result.now ≡ spec.numbers_of self.now body }
    {
        match self.numbers.get(body) {
            Some(numbers) => numbers,
            None => &[],
        }
    }

    /// What is visible in the body of a node, and at any number that is none's in the root's.
    pub(crate) fn visible_in(&self, node: u32) -> Chain<'_, '_, '_, 'a>
        ensures { chained_in result ≡ spec.visible_at self.now node }
    {
        Chain {
            nearest: None,
            tables: &self.tables,
            numbers: self.numbers_of(self.body_of(node)),
        }
    }
}
