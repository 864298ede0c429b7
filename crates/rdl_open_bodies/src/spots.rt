//! Where nodes stand among open bodies.

use rdl_bodies::Bodies;
use rdl_uses::Standing;

/// A node among the open bodies, which are known by their numbers.
#[derive(Clone, Copy)]
pub struct Spot {
    /// Its own body.
    pub body: usize,
    /// The body in which its use stands.
    pub within: usize,
    /// The number of the node in whose body its definition's text stands, or none where that is the root's.
    pub round: Option<u32>,
    /// How many items of that body stand before its definition.
    pub upto: usize,
    /// How many bodies are round its definition's text.
    pub depth: usize,
}

/// The open bodies of a tree, and its nodes among them, each at its number. The root's body has the number 0.
#[derive(Drop)]
pub struct OpenTree<'s, 'a> {
    pub bodies: Bodies<'s, 'a>,
    pub spots: Vec<Spot>,
}

/// A node whose body isn't open yet: the site of its definition, the body in which its use stands, where the uses in its body stand,
/// and the nodes whose bodies are round its use, the nearest first, the root's being none.
#[derive(Clone, Copy)]
pub(crate) struct Start<'s> {
    pub site: usize,
    pub within: usize,
    pub standing: Standing,
    pub chain: &'s [Option<u32>],
}

/// What the uses of a body have in common: the number of the body, where they stand, and the nodes whose bodies are round them.
#[derive(Clone, Copy)]
pub(crate) struct Round<'s> {
    pub within: usize,
    pub standing: Standing,
    pub chain: &'s [Option<u32>],
}
