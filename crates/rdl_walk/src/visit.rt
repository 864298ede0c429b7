//! The walk from a node to those below it.

use crate::row::{count_of, row_of};
use crate::walk::{MOST_NODES, Walk};
use bumpalo::Bump;
use rb_base::{NoMemory, Place};
use rdl_base::{Fault, Rule};
use rdl_children::Child;
use rdl_uses::{Standing, text_len};
use rdl_values::rows_by_number;
use std::alloc::Global;

// How many nodes are visited at the most: those that are judged, and one more.
const MOST_VISITED: u64 = 65_537;

impl<'s, 'n, 'a> Walk<'s, 'n, 'a> {
    ghost use Rattle.std.specs.Prelude.{◌≡◌, ◌+◌, ◌<◌, ◌≤◌, ◌∷◌, [], ℕ, List, Some, IfOk, OnOk, flat_map, slice_get};
    ghost use Rattle.rdl_base.specs.declared.fault.Fault.{Fault as AnyFault};
    ghost use Rattle.rdl_values.specs.Instances.{Instance, given_by, kind_of, most_nodes, with_below};
    ghost use Rattle.rdl_values.specs.Paths.{in_node};
    ghost use Rattle.rdl_values.specs.Paths as paths;
    ghost use Rattle.rdl_values.specs.Rows.{product, row};
    ghost use Rattle.rdl_values.specs.Uses.{Seen};
    ghost use Rattle.rdl_uses.specs.Parts.{StandsAt};
    ghost use Rattle.rdl_bodies.specs.Sited.{IsAt};
    ghost use Rattle.rdl_bodies.specs.declared.bodies.Site.{Site as SiteOf};
    ghost use Rattle.rdl_children.specs.Children.{AreChildren, IsChild};
    ghost use Rattle.rdl_walk.specs.Walking.{AreWalking};
    ghost use Rattle.rdl_walk.specs.Walked.{CanVisit, CanVisitAll, CanVisitChild, Fits, FitsNode, IsCounted, IsWalked, StandIn, element_of};

    // Counts a node, and answers whether it is judged. The first that isn't has E9.
    fn count_node(&mut self, place: Place) -> Result<bool, NoMemory>
        requires { self.old.count ≤ most_nodes + 1 }
        ensures bodies { self.new.bodies ≡ self.old.bodies }
        ensures judgements { self.new.judgements ≡ self.old.judgements }
        ensures counted { IfOk result (λ judged. IsCounted place judged self.old.count self.new.count self.old.failures self.new.failures) }
    {
        if self.count < MOST_NODES {
            self.count += 1;
            return Ok(true);
        }
        if self.count == MOST_NODES {
            self.failures.add(Fault {
                place,
                rule: Rule::E9,
            })?;
            self.count += 1;
        }
        Ok(false)
    }

    /// Visits a node of a site, and so many levels below it: judges the bodies of those that are among the first 65,536. Its name
    /// stands at the place, and the uses in its body stand there.
    #[cycle(visit)]
    pub fn visit(
        &mut self,
        alloc: Global,
        arena: &'a Bump,
        site: usize,
        place: Place,
        standing: Standing,
        levels: u8,
    ) -> Result<(), NoMemory>
        requires walking { AreWalking self.old }
        requires some { CanVisit self.old.bodies site place standing levels }
        requires deep { standing.depth + levels ≤ 40 }
        ensures { OnOk result ((s : SiteOf) (n : Instance) → slice_get self.old.bodies.sites.items site ≡ Some s → IsAt self.old.bodies s n.closure n.bound → StandsAt standing (in_node n.path (kind_of n)) → n.use_.name.place ≡ place → FitsNode n.path levels
            → IsWalked self.old self.new (with_below levels n)) }
    {
        let judged = self.count_node(place)?;
        if !judged {
            return Ok(());
        }
        let number = self.bodies.open(alloc, arena, site, &mut self.failures)?;
        let children = self.children(alloc, arena, number, standing)?;
        if levels == 0 {
            return Ok(());
        }
        self.visit_all(alloc, arena, children, standing, levels - 1)?;
        Ok(())
    }

    /// Visits the nodes that some uses of a body give, and so many levels below them.
    #[cycle(visit)]
    pub fn visit_all(
        &mut self,
        alloc: Global,
        arena: &'a Bump,
        children: &[Child<'a>],
        standing: Standing,
        levels: u8,
    ) -> Result<(), NoMemory>
        requires walking { AreWalking self.old }
        requires some { CanVisitAll self.old.bodies children.now standing levels }
        requires deep { standing.depth + levels < 40 }
        ensures { OnOk result ((p : paths.Parent) (ss : List Seen) → AreChildren self.old.bodies children.now ss → StandIn p ss → StandsAt standing p → Fits p levels
            → IsWalked self.old self.new (flat_map (with_below levels) (flat_map given_by ss))) }
    {
        for child in children {
            self.visit_child(alloc, arena, child, standing, levels)?;
        }
        Ok(())
    }

    // Visits the nodes that a use gives.
    #[cycle(visit)]
    fn visit_child(
        &mut self,
        alloc: Global,
        arena: &'a Bump,
        child: &Child<'a>,
        standing: Standing,
        levels: u8,
    ) -> Result<(), NoMemory>
        requires walking { AreWalking self.old }
        requires some { CanVisitChild self.old.bodies child.now standing levels }
        requires deep { standing.depth + levels < 40 }
        ensures { OnOk result ((s : Seen) → IsChild self.old.bodies child.now s → StandsAt standing s.parent → Fits s.parent levels
            → IsWalked self.old self.new (flat_map (with_below levels) (given_by s))) }
    {
        rows_by_number();
        let total = count_of(child.dims, MOST_VISITED);
        for number in 0..total {
            if self.count > MOST_NODES {
                return Ok(());
            }
            self.visit_element(alloc, arena, child, number, standing, levels)?;
        }
        Ok(())
    }

    // Visits an element of an array.
    #[cycle(visit)]
    fn visit_element(
        &mut self,
        alloc: Global,
        arena: &'a Bump,
        child: &Child<'a>,
        number: u64,
        standing: Standing,
        levels: u8,
    ) -> Result<(), NoMemory>
        requires walking { AreWalking self.old }
        requires some { CanVisitChild self.old.bodies child.now standing levels }
        requires within { number < product child.now.dims.now }
        requires small { number < 65537 }
        requires deep { standing.depth + levels < 40 }
        ensures { OnOk result ((s : Seen) (h : IsChild self.old.bodies child.now s) → StandsAt standing s.parent → Fits s.parent levels
            → IsWalked self.old self.new (with_below levels (element_of s h.closure h.bound (row child.now.dims.now number)))) }
    {
        let row = row_of(self.scratch, child.dims, number)?;
        let inst = child.inst;
        let name = inst.name;
        let Some(len) = text_len(standing.prefix, name.text, row) else {
            return Ok(());
        };
        let below = Standing {
            depth: standing.depth + 1,
            prefix: len as u16 + 1,
        };
        self.visit(alloc, arena, child.site, name.place, below, levels)?;
        Ok(())
    }
}
