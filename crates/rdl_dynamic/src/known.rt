//! What is known of a body while its dynamic assignments are judged.

ghost use Rattle.std.specs.Prelude.{◌≡◌, List};

use crate::marks::Marks;
use crate::seen::Seen;
use crate::targets::are_legal;
use rb_base::NoMemory;
use rdl_nodes::Row;
use rdl_props::Prop;
use rdl_targets::Trails;
use std::alloc::Global;

/// The paths that were walked from a body, what is assigned at the nodes that they lead to, and what was judged of paths and properties.
#[derive(Drop)]
pub(crate) struct Known<'a> {
    pub trails: Trails<'a>,
    pub marks: Marks,
    pub seen: Seen,
    // whether properties that exclude others are assigned at the nodes of paths, as far as no node was marked since
    pub rivals: Seen,
}

impl<'a> Known<'a> {
    ghost use Rattle.std.specs.Prelude.{◌≡◌, ◌++◌, ◌∷◌, [], ℕ, List, IfOk, OnOk, Some, is_some};
    ghost use Rattle.std.specs.List.{list_all, list_any};
    ghost use Rattle.rdl_tree.specs.declared.node.Elab.{Elab};
    ghost use Rattle.rdl_layers.specs.Assignments.{Dynamic, Nested, targets};
    ghost use Rattle.rdl_layers.specs.Meanings.{prop_of};
    ghost use Rattle.rdl_nodes.specs.declared.table.Row.{Row as AnyRow};
    ghost use Rattle.rdl_targets.specs.Trails.{LeadsTo, nodes_of};
    ghost use Rattle.rdl_dynamic.specs.Known.{AreKnown, has_rival, legal_at};

    /// Nothing yet.
    pub(crate) fn new(alloc: Global, node: u32) -> Result<Self, NoMemory>
        ensures { IfOk result (λ r. (e : Elab) (rows : List AnyRow) (b : Nested) → AreKnown e node rows b r []) }
    {
        Ok(Known {
            trails: Trails::new(alloc, node)?,
            marks: Marks::new(alloc),
            seen: Seen::new(alloc),
            rivals: Seen::new(alloc),
        })
    }

    /// Whether the property is legal on the kinds of all nodes that a path leads to. It takes no walk over them where that was judged.
    pub(crate) fn is_legal(&self, rows: &[Row<'_>], path: Option<u32>, prop: Prop) -> bool
        ensures { (e : Elab) (node : ℕ) (b : Nested) (earlier : List Dynamic) → AreKnown e node rows.now b self.now earlier → result ≡ list_all (legal_at rows.now prop) (nodes_of self.now.trails path) }
    {
        match self.seen.find(path, prop) {
            Some(legal) => legal,
            None => are_legal(rows, self.trails.nodes(path), prop),
        }
    }

    /// Whether one that excludes the property is assigned at one of the nodes that a path leads to. It takes no walk over them where that
    /// was judged and no node was marked since.
    pub(crate) fn is_excluded(&self, path: Option<u32>, prop: Prop) -> bool
        ensures { (e : Elab) (node : ℕ) (rows : List AnyRow) (b : Nested) (earlier : List Dynamic) → AreKnown e node rows b self.now earlier → result ≡ list_any (has_rival self.now.marks prop) (nodes_of self.now.trails path) }
    {
        match self.rivals.find(path, prop) {
            Some(excluded) => excluded,
            None => self.marks.is_excluded(self.trails.nodes(path), prop),
        }
    }

    /// Marks the nodes that a path leads to with a property, and keeps whether that is legal and excluded there. They are marked
    /// once.
    pub(crate) fn mark(
        &mut self,
        alloc: Global,
        path: Option<u32>,
        prop: Prop,
        legal: bool,
        excluded: bool,
    ) -> Result<(), NoMemory>
        ensures trails { self.new.trails ≡ self.old.trails }
        ensures known { OnOk result ((e : Elab) (node : ℕ) (rows : List AnyRow) (b : Nested) (earlier : List Dynamic) (d : Dynamic) → AreKnown e node rows b self.old earlier → LeadsTo e self.old.trails path (targets b d) → prop_of d.assigns ≡ Some prop
            → legal ≡ list_all (legal_at rows prop) (nodes_of self.old.trails path) → excluded ≡ list_any (has_rival self.old.marks prop) (nodes_of self.old.trails path) → AreKnown e node rows b self.new (earlier ++ (d ∷ []))) }
    {
        if self.seen.find(path, prop).is_some() {
            return self.rivals.add(alloc, path, prop, excluded);
        }
        self.rivals = Seen::new(alloc);
        self.marks.add_all(alloc, self.trails.nodes(path), prop)?;
        self.seen.add(alloc, path, prop, legal)
    }
}
