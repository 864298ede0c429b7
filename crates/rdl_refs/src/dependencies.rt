//! What the items of a tree refer to.

ghost use Rattle.std.specs.Prelude.{◌<◌, ◌≡◌, ◌^◌, length, map};
ghost use Rattle.topological_order.specs.Levels.{AreWithin};
ghost use Rattle.rdl_values.specs.Lineages.{lineages_of};
ghost use Rattle.rdl_refs.specs.Follows.{edges_of};
ghost use Rattle.rdl_refs.specs.Items.{items};

use rb_base::Place;
use rdl_tree::Elab;
use std::marker::Model;
use topological_order::Lists;

/// What each item of a tree depends on: the items that it refers to. Dependencies are seen as their tree.
#[derive(Drop)]
pub struct Dependencies<'a> {
    elab: Elab<'a>,
    /// For each item the numbers of those that it refers to.
    edges: Lists,
    /// For each item the place of its node.
    places: Vec<Place>,
}

impl<'a> Model for Dependencies<'a> {
    ghost use Rattle.rdl_tree.specs.declared.node.Elab.{Elab};
    ghost use Rattle.rdl_tree.specs.contracts.expr.Expr as expr;
    ghost use Rattle.rdl_tree.specs.contracts.item.Item as item;
    ghost use Rattle.rdl_tree.specs.contracts.node.Node as node;
    ghost use Rattle.rdl_tree.specs.contracts.value.Env as env;
    ghost use Rattle.std.specs.Coded.{codes};
    ghost use denote.Signature.{static_lft};

    ghost Value = { Elab };

    ghost coded = { Prim.hlevel (codes, (expr.the_row static_lft).coded, (item.the_row static_lft).coded, (node.the_row static_lft).coded, (env.the_row static_lft).coded) };

    ghost use Rattle.rdl_refs.specs.Dependencies.{AreDependencies};

    ghost view = { λ r. r.elab };

    ghost invariant = { AreDependencies };
}

impl<'a> Dependencies<'a> {
    /// The dependencies of a tree from their tables: for each item the numbers of those that it refers to, and the place of its node.
    pub fn of_tables(elab: Elab<'a>, edges: Lists, places: Vec<Place>) -> Dependencies<'a>
        requires refer { edges ≡ edges_of (lineages_of elab) }
        requires within { AreWithin edges }
        requires few { length edges < 2 ^ 32 }
        requires placed { places.items ≡ map (λ i. i.node.use_.name.place) (items (lineages_of elab)) }
        ensures { result ≡ elab.entry }
    {
        Dependencies {
            elab,
            edges,
            places,
        }
    }
}

impl Dependencies<'_> {
    /// For each item the numbers of those that it refers to.
    pub(crate) fn edges(&self) -> &Lists
        ensures edges { result.now ≡ edges_of (lineages_of self.now) }
        ensures within { AreWithin result.now }
        ensures few { length result.now < 2 ^ 32 }
    {
        &self.edges
    }

    /// For each item the place of its node.
    pub(crate) fn places(&self) -> &[Place]
        ensures { result.now ≡ map (λ i. i.node.use_.name.place) (items (lineages_of self.now)) }
    {
        &self.places
    }
}
