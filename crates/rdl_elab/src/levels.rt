//! The nodes below a node, level by level.

ghost use Rattle.std.specs.Prelude.{◌≡◌, []};

use crate::growing::Growing;
use crate::heads::{Head, len_of, node_of};
use crate::siblings::Siblings;
use bumpalo::Bump;
use rb_base::NoMemory;
use rdl_children::Child;
use rdl_tree::Node;
use rdl_uses::Standing;
use rdl_values::rows_by_number;
use rdl_walk::{count_of, row_of};
use std::alloc::Global;

// The most nodes of a source.
const MOST_NODES: u64 = 65_536;

// How many nodes some uses give, where that is no more than a source may have.
fn count_nodes(children: &[Child<'_>]) -> usize {
    let mut count: u64 = 0;
    for child in children {
        count = count.saturating_add(count_of(child.dims, MOST_NODES));
    }
    count.min(MOST_NODES) as usize
}

// No nodes.
fn none<'a>() -> &'a [Node<'a>]
    ensures { result.now ≡ [] }
{
    &[]
}

impl<'s, 'a> Growing<'s, 'a> {
    ghost use Rattle.std.specs.Prelude.{◌≡◌, ◌+◌, ◌<◌, ◌≤◌, List, ℕ, Some, IfOk, OnOk, length, flat_map, slice_get};
    ghost use Rattle.std.specs.List.{AllByRecursion};
    ghost use Rattle.rdl_values.specs.Bodies.{Body as BodyOf};
    ghost use Rattle.rdl_values.specs.Elaborated.{AreTreesOf};
    ghost use Rattle.rdl_values.specs.Instances.{Instance, children as nodes_in, given_by, kind_of, most_nodes, seen_in};
    ghost use Rattle.rdl_values.specs.NoNode.{no_node};
    ghost use Rattle.rdl_values.specs.Paths.{in_node};
    ghost use Rattle.rdl_values.specs.Rows.{product, row};
    ghost use Rattle.rdl_values.specs.Uses.{Seen, parent_of, seen};
    ghost use Rattle.rdl_uses.specs.Parts.{StandsAt};
    ghost use Rattle.rdl_bodies.specs.Sited.{IsAt};
    ghost use Rattle.rdl_bodies.specs.declared.bodies.Site.{Site as SiteOf};
    ghost use Rattle.rdl_children.specs.Children.{AreChildren, IsChild};
    ghost use Rattle.rdl_walk.specs.Walked.{CanVisit, CanVisitChild, Fits, FitsNode, element_of};
    ghost use Rattle.rdl_elab.specs.Grown.{AddsNodes, AreAllWhole, AreGrowing, CanGrowAll, CanGrowBelow, IsGrown, IsHeadOf, IsNodeFor, IsWhole};
    ghost use Rattle.rdl_elab.specs.Nodes.{AreSiblings};

    /// The node of a head, and so many levels below it. The uses in its body stand there.
    #[cycle(grow)]
    pub(crate) fn grow(
        &mut self,
        alloc: Global,
        arena: &'a Bump,
        head: Head<'a>,
        standing: Standing,
        levels: u8,
    ) -> Result<Node<'a>, NoMemory>
        requires growing { AreGrowing self.old }
        requires some { CanVisit self.old.walk.bodies head.site head.name.place standing levels }
        requires deep { standing.depth + levels ≤ 40 }
        ensures grown { OnOk result (IsGrown self.old self.new) }
        ensures node { IfOk result (λ r. (s : SiteOf) (n : Instance) → slice_get self.old.walk.bodies.sites.items head.entry.site ≡ Some s → IsAt self.old.walk.bodies s n.closure n.bound → StandsAt standing (in_node n.path (kind_of n)) → FitsNode n.path levels → IsWhole levels n → IsHeadOf head.entry n
            → IsNodeFor self.old.count head.entry.alias r n self.new.count) }
    {
        let id = self.number()?;
        let opened = self.open(alloc, arena, head.site)?;
        let children = self.walk.children(alloc, arena, opened.number, standing)?;
        let below = self.grow_below(alloc, arena, children, standing, levels)?;
        Ok(node_of(id, &head, &opened, below))
    }

    // The nodes in a body, if there are levels left.
    #[cycle(grow)]
    fn grow_below(
        &mut self,
        alloc: Global,
        arena: &'a Bump,
        children: &[Child<'a>],
        standing: Standing,
        levels: u8,
    ) -> Result<&'a [Node<'a>], NoMemory>
        requires growing { AreGrowing self.old }
        requires some { CanGrowBelow self.old.walk.bodies children.now standing levels }
        requires deep { standing.depth + levels ≤ 40 }
        ensures grown { OnOk result (IsGrown self.old self.new) }
        ensures nodes { IfOk result (λ rs. (n : Instance) → AreChildren self.old.walk.bodies children.now (seen_in n) → StandsAt standing (in_node n.path (kind_of n)) → FitsNode n.path levels → IsWhole levels n
            → AreTreesOf rs.now self.old.count rs.now (nodes_in n) self.new.count) }
    {
        if levels == 0 {
            return Ok(none());
        }
        let below = self.grow_all(alloc, arena, children, standing, levels - 1)?;
        Ok(below)
    }

    /// The nodes that the uses of a body give, and so many levels below them.
    #[cycle(grow)]
    pub(crate) fn grow_all(
        &mut self,
        alloc: Global,
        arena: &'a Bump,
        children: &[Child<'a>],
        standing: Standing,
        levels: u8,
    ) -> Result<&'a [Node<'a>], NoMemory>
        requires growing { AreGrowing self.old }
        requires some { CanGrowAll self.old.walk.bodies children.now standing levels }
        requires deep { standing.depth + levels < 40 }
        ensures grown { OnOk result (IsGrown self.old self.new) }
        ensures nodes { IfOk result (λ rs. (above : List BodyOf) (b : BodyOf) → AreChildren self.old.walk.bodies children.now (seen above b) → StandsAt standing (parent_of b) → Fits (parent_of b) levels → AreAllWhole levels (seen above b)
            → AreTreesOf rs.now self.old.count rs.now (flat_map given_by (seen above b)) self.new.count) }
    {
        let mut beside = Siblings::new(alloc, arena, count_nodes(children));
        for child in children {
            self.grow_child(alloc, arena, child, standing, levels, &mut beside)?;
        }
        Ok(beside.into_slice())
    }

    // Puts the nodes that a use gives behind those before it.
    #[cycle(grow)]
    fn grow_child(
        &mut self,
        alloc: Global,
        arena: &'a Bump,
        child: &Child<'a>,
        standing: Standing,
        levels: u8,
        beside: &mut Siblings<'a>,
    ) -> Result<(), NoMemory>
        requires growing { AreGrowing self.old }
        requires some { CanVisitChild self.old.walk.bodies child.now standing levels }
        requires deep { standing.depth + levels < 40 }
        requires siblings { AreSiblings beside.old }
        ensures grown { OnOk result (IsGrown self.old self.new) }
        ensures siblings { OnOk result (AreSiblings beside.new) }
        ensures nodes { OnOk result ((s : Seen) → IsChild self.old.walk.bodies child.now s → StandsAt standing s.parent → Fits s.parent levels → length (given_by s) ≤ most_nodes → AllByRecursion (IsWhole levels) (given_by s)
            → AddsNodes self.old.count beside.old.nodes.items beside.new.nodes.items s.use_.alias (given_by s) self.new.count) }
    {
        rows_by_number();
        let alias = beside.number_of(&child.alias);
        let total = count_of(child.dims, MOST_NODES);
        for number in 0..total {
            let node = self.grow_element(alloc, arena, child, alias, number, standing, levels)?;
            beside.push(node)?;
        }
        Ok(())
    }

    // The node of an element, which is an alias of the register of this number.
    #[cycle(grow)]
    fn grow_element(
        &mut self,
        alloc: Global,
        arena: &'a Bump,
        child: &Child<'a>,
        alias: Option<u32>,
        number: u64,
        standing: Standing,
        levels: u8,
    ) -> Result<Node<'a>, NoMemory>
        requires growing { AreGrowing self.old }
        requires some { CanVisitChild self.old.walk.bodies child.now standing levels }
        requires within { number < product child.now.dims.now }
        requires small { number < 65536 }
        requires deep { standing.depth + levels < 40 }
        ensures grown { OnOk result (IsGrown self.old self.new) }
        ensures node { IfOk result (λ r. (s : Seen) (h : IsChild self.old.walk.bodies child.now s) → StandsAt standing s.parent → Fits s.parent levels → IsWhole levels (element_of s h.closure h.bound (row child.now.dims.now number))
            → IsNodeFor self.old.count alias r (element_of s h.closure h.bound (row child.now.dims.now number)) self.new.count) }
    {
        let inst = child.inst;
        let name = inst.name;
        let index = row_of(arena, child.dims, number)?;
        let len = len_of(standing.prefix, &name, index);
        let below = Standing {
            depth: standing.depth + 1,
            prefix: len as u16 + 1,
        };
        let head = Head {
            site: child.site,
            name,
            index,
            inst: Some(inst),
            alias,
        };
        let node = self.grow(alloc, arena, head, below, levels)?;
        Ok(node)
    }
}
