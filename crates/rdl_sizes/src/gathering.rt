//! The instances of a body, from the nodes in it.

ghost use Rattle.std.specs.Prelude.{◌≡◌, ℕ, ◌+◌, ◌<◌, ◌≤◌, ◌^◌, ◌∷◌, List, true, IfOk, OnOk, length, slice_get, Some};
ghost use Rattle.std.specs.List.{All};
ghost use Rattle.rdl_tree.specs.declared.node.Elab.{Elab as AnyElab};
ghost use Rattle.rdl_tree.specs.declared.node.Node.{Node as AnyNode, out-Node};
ghost use Rattle.rdl_values.specs.Instances.{Instance};
ghost use Rattle.rdl_values.specs.Lineages.{Lineage, child_of, lineages_of};
ghost use Rattle.rdl_values.specs.Elaborated.{Says, around_body};
ghost use Rattle.rdl_values.specs.Values.{Around};
ghost use Rattle.rdl_failures.specs.Shown.{IsShown};
ghost use Rattle.rdl_addr.specs.Layout.{has_address as is_placed};
ghost use Rattle.rdl_sizes.specs.Bodies as bodies;
ghost use Rattle.rdl_sizes.specs.Bodies.{HasText, IsBodyOf, IsGathered, Runs, addressed, with_one};
ghost use Rattle.rdl_sizes.specs.Levels.{groups_at};
ghost use Rattle.rdl_sizes.specs.Lots.{AreLotsOf};
ghost use Rattle.rdl_sizes.specs.Sized.{IsMeasure, measure_at};

use crate::known::Measure;
use crate::lot::{Lot, Run, lot_of};
use rb_base::NoMemory;
use rdl_tree::{Kind, Node};
use rdl_values::Chain;
use std::alloc::Global;

/// Whether nodes of a kind have addresses.
pub(crate) fn has_address(kind: Kind) -> bool
    ensures { result ≡ addressed kind }
{
    !matches!(kind, Kind::Field | Kind::Signal)
}

/// Whether these are the indices of an array's first element.
fn all_zero(index: &[u64]) -> bool
    ensures { result ≡ bodies.all_zero index.now }
{
    for at in index {
        if *at != 0 {
            return false;
        }
    }
    true
}

/// Takes up one node, behind which these stand up to the next instance, and adds the instance that it is the first element of. Its
/// text sees what is visible here.
fn gather<'a>(
    child: &Node<'a>,
    visible: &Chain<'_, '_, '_, 'a>,
    measure: Measure,
    run: Run,
    lots: &mut Vec<Lot>,
) -> Result<Run, NoMemory>
    requires few { run.count + 1 < 2 ^ 64 }
    requires wide { 0 < measure.access }
    ensures few { IfOk result (λ r. r.count ≤ run.count + 1) }
    ensures wide { OnOk result (All (λ l. 0 < l.part.access) lots.old.items → All (λ l. 0 < l.part.access) lots.new.items) }
    ensures gathered { IfOk result (λ r. (size access : Instance → ℕ) (around : Around) (beside : List AnyNode) (c : Instance) (rs : Runs) → IsShown visible.now around → Says beside child.now c → HasText around c
        → (is_placed c ≡ true → (measure.size ≡ size c) × (measure.access ≡ access c)) → IsGathered size access run lots.old.items rs
        → IsGathered size access r lots.new.items (with_one (is_placed c) (bodies.is_first c) c rs)) }
{
    if !has_address(child.kind) {
        return Ok(run);
    }
    let more = run.with(measure);
    if !all_zero(child.index) {
        return Ok(more);
    }
    lots.push(lot_of(child, visible, more))?;
    Ok(Run::none())
}

/// The instances in the body of a node, in which this is visible, where so much is known of the nodes in it.
pub(crate) fn lots_of<'a>(
    alloc: Global,
    node: &Node<'a>,
    visible: &Chain<'_, '_, '_, 'a>,
    measures: &[Measure],
) -> Result<Vec<Lot>, NoMemory>
    requires within { All (λ r. (out-Node r).id < length measures.now) (out-Node node.now).children.now }
    requires wide { All (λ m. 0 < m.access) measures.now }
    ensures wide { IfOk result (λ lots. All (λ l. 0 < l.part.access) lots.items) }
    ensures groups { IfOk result (λ lots. (e : AnyElab) (l : Lineage) → IsBodyOf e node.now l → IsShown visible.now (around_body l.node)
        → ((k : ℕ) (c : Instance) → slice_get (lineages_of e) k ≡ Some (child_of l c) → is_placed c ≡ true → IsMeasure (measure_at measures.now k) (child_of l c))
        → AreLotsOf lots.items (groups_at l)) }
{
    let mut lots = Vec::new(alloc);
    let mut run = Run::none();
    let children = node.children;
    for at in (0..children.len()).rev() {
        let child = &children[at];
        let measure = measures[child.id as usize];
        run = gather(child, visible, measure, run, &mut lots)?;
    }
    lots.reverse();
    Ok(lots)
}
