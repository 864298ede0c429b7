//! What a survey of a source gives.

use rdl_tree::Name;
use rdl_walk::Walk;

/// The top as a node: the number of its definition's site, and its name.
#[derive(Clone, Copy)]
pub struct TopSite<'a> {
    pub site: usize,
    pub name: Name<'a>,
}

/// A source that was walked over: its open bodies, of which the root's has the number 0, all its failures, the count of its nodes, and
/// its top, if that gives a node.
#[derive(Drop)]
pub struct Surveyed<'s, 'a> {
    pub walk: Walk<'s, 's, 'a>,
    pub top: Option<TopSite<'a>>,
}
