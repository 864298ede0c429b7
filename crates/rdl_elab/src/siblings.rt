//! The nodes of one body.

ghost use Rattle.std.specs.Prelude.{◌≡◌, [], option_map, slice_get};
ghost use Rattle.rdl_tree.specs.declared.node.Node.{out-Node};

use bumpalo::Bump;
use bumpalo::collections::into_bump_slice;
use rb_base::NoMemory;
use rdl_tree::{Name, Node};
use rdl_values::Firsts;
use std::alloc::Global;

/// The nodes of a body so far, and the first place of each name among them.
#[derive(Drop)]
pub(crate) struct Siblings<'a> {
    nodes: Vec<Node<'a>, &'a Bump>,
    places: Firsts<'a>,
}

// A list with nothing in it yet, and room for so many. It has none where the arena refuses so much.
fn room_for<'a>(arena: &'a Bump, room: usize) -> Vec<Node<'a>, &'a Bump>
    ensures { result.items ≡ [] }
{
    match Vec::with_capacity(arena, room) {
        Ok(list) => list,
        Err(_) => Vec::new(arena),
    }
}

// The number of the node at a place.
fn number_at(nodes: &[Node], place: usize) -> Option<u32>
    ensures { result ≡ option_map (λ r. (out-Node r).id) (slice_get nodes.now place) }
{
    nodes.get(place).map(|node| node.id)
}

impl<'a> Siblings<'a> {
    ghost use Rattle.std.specs.Prelude.{◌≡◌, ◌++◌, ◌∷◌, [], IfOk, OnOk, option_and_then};
    ghost use Rattle.rdl_values.specs.Elaborated.{number_named};
    ghost use Rattle.rdl_elab.specs.Nodes.{AreSiblings};

    /// No nodes yet, and room for so many, where the arena doesn't refuse it.
    pub(crate) fn new(alloc: Global, arena: &'a Bump, room: usize) -> Self
        ensures none { result.nodes.items ≡ [] }
        ensures siblings { AreSiblings result }
    {
        Siblings {
            nodes: room_for(arena, room),
            places: Firsts::new(alloc),
        }
    }

    /// The number of the first node of a name, if there is one.
    pub(crate) fn number_of(&self, name: &Option<Name<'a>>) -> Option<u32>
        requires { AreSiblings self.now }
        ensures { result ≡ option_and_then (number_named self.now.nodes.items) name.now }
    {
        let Some(name) = name else {
            return None;
        };
        match self.places.find(name.text) {
            Some(place) => number_at(&self.nodes, place),
            None => None,
        }
    }

    /// Puts a node behind the others.
    pub(crate) fn push(&mut self, node: Node<'a>) -> Result<(), NoMemory>
        requires { AreSiblings self.old }
        ensures pushed { OnOk result (self.new.nodes.items ≡ self.old.nodes.items ++ (node.entry ∷ [])) }
        ensures siblings { OnOk result (AreSiblings self.new) }
    {
        let place = self.nodes.len();
        self.places.put(node.name, place)?;
        self.nodes.push(node)?;
        Ok(())
    }

    /// All of them.
    pub(crate) fn into_slice(self) -> &'a [Node<'a>]
        ensures { result.now ≡ self.entry.nodes.items }
    {
        into_bump_slice(self.nodes)
    }
}
