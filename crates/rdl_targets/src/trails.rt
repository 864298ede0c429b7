//! The nodes that paths lead to from a body, each path walked once.

use crate::contents::{Contents, row_at};
use crate::matching::{Wanted, indices_of, matching};
use crate::notes::Notes;
use rb_base::NoMemory;
use rdl_nodes::Row;
use rdl_tree::{Path, Step};
use rdl_values::Chain;
use std::alloc::Global;
use std::collections::BTreeSet;

/// The paths that were walked from the body of one node, by numbers: each has its nodes, one at least, and that without steps is the
/// first. A path that was walked takes no more than its text from then on, and so does one that leads nowhere from a path that was
/// gone on from.
#[derive(Drop)]
pub struct Trails<'a> {
    pub(crate) sets: Vec<Vec<u32>>,
    // the numbers of paths, under those of the paths without their last step
    pub(crate) steps: Notes<'a>,
    // a node for each name, and one for each name and indices, in the bodies of a path's nodes, under the number of the path
    pub(crate) inside: Notes<'a>,
    // the paths of which there is one
    pub(crate) spread: BTreeSet<u32>,
}

// The indices of the first of some nodes.
fn index_of_first<'a>(rows: &[Row<'a>], nodes: &[u32]) -> &'a [u64] {
    match nodes.first() {
        Some(node) => match row_at(rows, *node) {
            Some(row) => row.node.index,
            None => &[],
        },
        None => &[],
    }
}

impl<'a> Trails<'a> {
    ghost use Rattle.std.specs.Prelude.{◌≡◌, [], ◌∷◌, ℕ, false, List, IfOk, OnOk, Some, filter, flat_map};
    ghost use Rattle.rdl_tree.specs.declared.node.Elab.{Elab};
    ghost use Rattle.rdl_values.specs.Instances.{Instance, children};
    ghost use Rattle.rdl_values.specs.Lineages.{lineages_of};
    ghost use Rattle.rdl_values.specs.Values.{Around};
    ghost use Rattle.rdl_values.specs.Views.{steps_of};
    ghost use Rattle.rdl_values.specs.Parts as parts;
    ghost use Rattle.rdl_nodes.specs.Rows.{AreRows};
    ghost use Rattle.rdl_failures.specs.Shown.{IsShown};
    ghost use Rattle.rdl_layers.specs.Assignments.{is_step, led_down};
    ghost use Rattle.rdl_targets.specs.At.{AreAt, IsAt};
    ghost use Rattle.rdl_targets.specs.Contents.{AreContents, passes};
    ghost use Rattle.rdl_targets.specs.Trails.{AreTrails, Finds, MayLead, Pushes, Spreads, nodes_of, set_at};
    ghost use Rattle.rdl_targets.specs.Steps.{further};

    /// No path but that without steps.
    pub fn new(alloc: Global, node: u32) -> Result<Self, NoMemory>
        ensures { IfOk result (λ r. (e : Elab) → AreTrails e node r) }
    {
        let mut first = Vec::new(alloc);
        first.push(node)?;
        let mut sets = Vec::new(alloc);
        sets.push(first)?;
        Ok(Trails {
            sets,
            steps: Notes::new(alloc),
            inside: Notes::new(alloc),
            spread: BTreeSet::new(alloc),
        })
    }

    // The nodes of the path of a number.
    fn set(&self, path: u32) -> &[u32]
        ensures { result.now ≡ nodes_of self.now (Some path) }
    {
        match self.sets.get(path as usize) {
            Some(nodes) => nodes,
            None => &[],
        }
    }

    /// The nodes that a path leads to, in order: none where it has no number.
    pub fn nodes(&self, path: Option<u32>) -> &[u32]
        ensures { result.now ≡ nodes_of self.now path }
    {
        match path {
            Some(number) => self.set(number),
            None => &[],
        }
    }

    // Lists the names and indices in the bodies of a path's nodes, once.
    fn spread(&mut self, alloc: Global, rows: &[Row<'a>], path: u32) -> Result<(), NoMemory>
        ensures { OnOk result ((e : Elab) (node : ℕ) → AreRows e rows.now → AreTrails e node self.old → Spreads e node path self.old self.new) }
    {
        if self.spread.contains(&path) {
            return Ok(());
        }
        match self.sets.get(path as usize) {
            Some(nodes) => {
                self.inside.note_all(alloc, rows, path, nodes)?;
                self.spread.insert(path)?;
                Ok(())
            }
            None => Ok(()),
        }
    }

    // Whether a step may lead on from a path. Of a path to one node a walk tells as soon.
    fn may_lead(
        &mut self,
        alloc: Global,
        rows: &[Row<'a>],
        path: u32,
        name: &[u8],
        wanted: &Wanted,
    ) -> Result<bool, NoMemory>
        ensures { IfOk result (λ may. (e : Elab) (node : ℕ) → AreRows e rows.now → AreTrails e node self.old → MayLead e node path name.now wanted.now may self.old self.new) }
    {
        if self.set(path).len() < 2 {
            return Ok(true);
        }
        self.spread(alloc, rows, path)?;
        Ok(self.inside.first(path, name, wanted).is_some())
    }

    // Puts a path behind the others.
    fn push(
        &mut self,
        alloc: Global,
        rows: &[Row<'a>],
        from: u32,
        name: &'a [u8],
        wanted: &Wanted,
        nodes: Vec<u32>,
    ) -> Result<u32, NoMemory>
        ensures { IfOk result (λ u. (e : Elab) (node : ℕ) (before : List ℕ) → AreTrails e node self.old → set_at self.old from ≡ Some before → parts.is_empty nodes.items ≡ false
            → ((ms : List Instance) → AreAt (lineages_of e) before ms → AreAt (lineages_of e) nodes.items (filter (passes wanted.now name.now) (flat_map children ms))) → Pushes e node u nodes.items self.old self.new) }
    {
        let Ok(number) = u32::try_from(self.sets.len()) else {
            return Err(NoMemory);
        };
        let index = index_of_first(rows, &nodes);
        self.sets.push(nodes)?;
        self.steps.keep(alloc, from, name, wanted, index, number)?;
        Ok(number)
    }

    // The number of the path that a step makes of another, if it leads anywhere.
    fn turn(
        &mut self,
        alloc: Global,
        rows: &[Row<'a>],
        contents: &Contents<'a>,
        from: u32,
        name: &'a [u8],
        wanted: &Wanted,
    ) -> Result<Option<u32>, NoMemory>
        ensures { IfOk result (λ r. (e : Elab) (node : ℕ) (before : List ℕ) (ms : List Instance) → AreRows e rows.now → AreContents e contents.now → AreTrails e node self.old → set_at self.old from ≡ Some before → AreAt (lineages_of e) before ms
            → Finds e node self.old self.new r (filter (passes wanted.now name.now) (flat_map children ms))) }
    {
        let known = self.steps.first(from, name, wanted);
        if known.is_some() {
            return Ok(known);
        }
        if !self.may_lead(alloc, rows, from, name, wanted)? {
            return Ok(None);
        }
        let nodes = matching(alloc, contents, self.set(from), name, wanted)?;
        if nodes.is_empty() {
            return Ok(None);
        }
        let number = self.push(alloc, rows, from, name, wanted, nodes)?;
        Ok(Some(number))
    }

    // The same of a step as it is written.
    fn step(
        &mut self,
        alloc: Global,
        rows: &[Row<'a>],
        contents: &Contents<'a>,
        from: u32,
        step: &Step<'a>,
        visible: &Chain<'_, '_, '_, 'a>,
    ) -> Result<Option<u32>, NoMemory>
        ensures { IfOk result (λ r. (e : Elab) (node : ℕ) (env : Around) (before : List ℕ) (ms : List Instance) → AreRows e rows.now → AreContents e contents.now → IsShown visible.now env → AreTrails e node self.old → set_at self.old from ≡ Some before → AreAt (lineages_of e) before ms
            → Finds e node self.old self.new r (filter (is_step env step.now) (flat_map children ms))) }
    {
        let wanted = indices_of(alloc, step.index, visible)?;
        self.turn(alloc, rows, contents, from, step.name.text, &wanted)
    }

    // The number of a path with these steps, if it leads anywhere.
    fn walk(
        &mut self,
        alloc: Global,
        rows: &[Row<'a>],
        contents: &Contents<'a>,
        steps: &[Step<'a>],
        visible: &Chain<'_, '_, '_, 'a>,
    ) -> Result<Option<u32>, NoMemory>
        ensures { IfOk result (λ r. (e : Elab) (node : ℕ) (env : Around) (n : Instance) → AreRows e rows.now → AreContents e contents.now → IsShown visible.now env → AreTrails e node self.old → IsAt (lineages_of e) node n
            → Finds e node self.old self.new r (further (is_step env) (n ∷ []) steps.now)) }
    {
        let mut path = 0;
        for step in steps {
            let Some(next) = self.step(alloc, rows, contents, path, step, visible)? else {
                return Ok(None);
            };
            path = next;
        }
        Ok(Some(path))
    }

    /// The number of a path from the body of the node, if it leads anywhere: a step without indices leads to all elements of an array,
    /// and one of which an index has no value to none (SystemRDL 2.0, 5.1.3). The names of the body that the path stands in are visible.
    /// The only error is want of memory.
    pub fn find(
        &mut self,
        alloc: Global,
        rows: &[Row<'a>],
        contents: &Contents<'a>,
        path: &Path<'a>,
        visible: &Chain<'_, '_, '_, 'a>,
    ) -> Result<Option<u32>, NoMemory>
        ensures { IfOk result (λ r. (e : Elab) (node : ℕ) (env : Around) (n : Instance) → AreRows e rows.now → AreContents e contents.now → IsShown visible.now env → AreTrails e node self.old → IsAt (lineages_of e) node n
            → Finds e node self.old self.new r (led_down children (is_step env) (children n) (steps_of path.now))) }
    {
        if path.steps.is_empty() {
            return Ok(None);
        }
        self.walk(alloc, rows, contents, path.steps, visible)
    }
}
