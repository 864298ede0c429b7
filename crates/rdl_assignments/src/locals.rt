//! The assignments of a body to its own node.

ghost use Rattle.std.specs.Prelude.{◌≡◌, ◌++◌, [], ◌∷◌, List, IfOk, OnOk};
ghost use Rattle.rdl_base.specs.declared.fault.Fault.{Fault};
ghost use Rattle.rdl_tree.specs.declared.item.Item.{Item as AnyItem};
ghost use Rattle.rdl_values.specs.Bodies.{Body, around};
ghost use Rattle.rdl_failures.specs.Noted.{with_all};
ghost use Rattle.rdl_failures.specs.Shown.{IsShown};
ghost use Rattle.rdl_layers.specs.Assignments.{local_in, locals};
ghost use Rattle.rdl_layers.specs.Judged.{all_failures, failures_of, sound};
ghost use Rattle.rdl_layers.specs.Meanings.{Assignment};
ghost use Rattle.rdl_props.specs.Table.{is_legal};
ghost use Rattle.rdl_assignments.specs.Layers.{AreGiven, IsLayer};
ghost use Rattle.rdl_assignments.specs.Live.{AreThinned, own_set};

use crate::allowed::Allowed;
use crate::layer::Layer;
use crate::live::LiveSet;
use crate::set::ValidAssignment;
use rb_base::NoMemory;
use rdl_failures::Failures;
use rdl_tree::{Item, Kind};
use rdl_values::Chain;
use std::alloc::Global;

// Reads what an item assigns to the node.
fn read_local<'a>(
    layer: &mut Layer<'a>,
    item: &'a Item<'a>,
    kind: Kind,
    body: u32,
    visible: &Chain<'_, '_, '_, 'a>,
    failures: &mut Failures,
) -> Result<(), NoMemory>
    ensures { OnOk result ((start : List Fault) (read : List Assignment) (b : Body) (before : List AnyItem) → IsShown visible.now (b.names ∷ around b.outer) → IsLayer (λ p. is_legal p kind) body layer.old start failures.old read
        → IsLayer (λ p. is_legal p kind) body layer.new start failures.new (read ++ local_in b (before, item.now))) }
{
    match item {
        Item::Local(set) => layer.read(set, Allowed::On(kind), body, visible, failures),
        _ => Ok(()),
    }
}

// How many items assign something to the node.
fn count_locals(items: &[Item<'_>]) -> usize {
    items
        .iter()
        .filter(|item| matches!(item, Item::Local(_)))
        .count()
}

/// Puts in all failures of the assignments of a body to its node, which is of the kind: V rules in values, P1 to P6 and P8. It gives
/// those that fail none, in text order. The body has the number, and its names and those round it are visible.
pub fn judge_locals<'a>(
    alloc: Global,
    items: &'a [Item<'a>],
    kind: Kind,
    body: u32,
    visible: &Chain<'_, '_, '_, 'a>,
    failures: &mut Failures,
) -> Result<Vec<ValidAssignment<'a>>, NoMemory>
    ensures noted { OnOk result ((b : Body) → b.items ≡ items.now → IsShown visible.now (b.names ∷ around b.outer) → failures.new ≡ with_all (all_failures (failures_of (λ p. is_legal p kind)) (locals b)) failures.old) }
    ensures given { IfOk result (λ r. (b : Body) → b.items ≡ items.now → IsShown visible.now (b.names ∷ around b.outer) → AreGiven body r.items (sound (failures_of (λ p. is_legal p kind)) (locals b))) }
{
    let mut layer = Layer::with_room(alloc, count_locals(items))?;
    for item in items {
        read_local(&mut layer, item, kind, body, visible, failures)?;
    }
    Ok(layer.given)
}

/// The same for a further body of a text, of the settings that are live there: the failures of the others were put in with an earlier
/// body, and they give nothing.
pub fn judge_live_locals<'a>(
    alloc: Global,
    live: &[LiveSet<'a>],
    kind: Kind,
    body: u32,
    visible: &Chain<'_, '_, '_, 'a>,
    failures: &mut Failures,
) -> Result<Vec<ValidAssignment<'a>>, NoMemory>
    ensures noted { OnOk result ((b : Body) → IsShown visible.now (b.names ∷ around b.outer) → AreThinned own_set (λ p. is_legal p kind) failures.old b [] b.items live.now → failures.new ≡ with_all (all_failures (failures_of (λ p. is_legal p kind)) (locals b)) failures.old) }
    ensures given { IfOk result (λ r. (b : Body) → IsShown visible.now (b.names ∷ around b.outer) → AreThinned own_set (λ p. is_legal p kind) failures.old b [] b.items live.now → AreGiven body r.items (sound (failures_of (λ p. is_legal p kind)) (locals b))) }
{
    let mut layer = Layer::with_room(alloc, live.len())?;
    for one in live {
        layer.read(one.set, Allowed::On(kind), body, visible, failures)?;
    }
    Ok(layer.given)
}
