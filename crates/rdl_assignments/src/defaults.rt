//! The defaults of a body.

ghost use Rattle.std.specs.Prelude.{◌≡◌, ◌++◌, ◌-◌, [], ◌∷◌, List, IfOk, OnOk, length, replicate};
ghost use Rattle.rdl_base.specs.declared.fault.Fault.{Fault};
ghost use Rattle.rdl_tree.specs.declared.item.Item.{Item as AnyItem};
ghost use Rattle.rdl_values.specs.Bodies.{Body, Layer as BodyLayer, Scope, around};
ghost use Rattle.rdl_failures.specs.Noted.{with_all};
ghost use Rattle.rdl_failures.specs.Shown.{IsShown};
ghost use Rattle.rdl_layers.specs.Assignments.{default_in, defaults};
ghost use Rattle.rdl_layers.specs.Judged.{all_failures, anywhere, failures_of};
ghost use Rattle.rdl_layers.specs.Meanings.{Assignment};
ghost use Rattle.rdl_assignments.specs.Defaults.{AreDefaults, count_before};
ghost use Rattle.rdl_assignments.specs.Layers.{IsLayer};
ghost use Rattle.rdl_assignments.specs.Live.{AreThinned, default_set};

use crate::allowed::Allowed;
use crate::layer::Layer;
use crate::live::LiveSet;
use crate::set::ValidAssignment;
use rb_base::NoMemory;
use rdl_failures::Failures;
use rdl_tree::Item;
use rdl_values::Chain;
use std::alloc::Global;

// How many of some positions lie before one.
fn count_below(positions: &[usize], position: usize) -> usize
    ensures { result ≡ count_before positions.now position }
{
    let mut count = 0;
    for one in positions {
        if *one < position {
            count += 1;
        }
    }
    count
}

/// The defaults of a body that fail no rule, in text order, and beside each how many items stand before it. Each property is among them
/// once at most.
#[derive(Drop)]
pub struct Defaults<'a> {
    given: Vec<ValidAssignment<'a>>,
    positions: Vec<usize>,
}

impl<'a> Defaults<'a> {
    ghost use Rattle.std.specs.Prelude.{◌≡◌};
    ghost use Rattle.rdl_assignments.specs.Defaults.{before_in, count_before};

    // How many stand before the item of a position.
    fn count(&self, position: usize) -> usize
        ensures { result ≡ count_before self.now.positions.items position }
    {
        count_below(&self.positions, position)
    }

    /// Those that stand before the item of a position, and all of them before the position behind the last.
    pub fn before(&self, position: usize) -> &[ValidAssignment<'a>]
        ensures { result.now ≡ before_in self.now position }
    {
        let count = self.count(position);
        if count < self.given.len() {
            &self.given[..count]
        } else {
            &self.given
        }
    }
}

// Puts the position behind others until there are so many.
fn fill(positions: &mut Vec<usize>, count: usize, position: usize) -> Result<(), NoMemory>
    ensures { OnOk result (positions.new.items ≡ positions.old.items ++ replicate (count - length positions.old.items) position) }
{
    let missing = count.saturating_sub(positions.len());
    for _ in 0..missing {
        positions.push(position)?;
    }
    Ok(())
}

// Reads what an item is by default.
fn read_default<'a>(
    layer: &mut Layer<'a>,
    item: &'a Item<'a>,
    body: u32,
    visible: &Chain<'_, '_, '_, 'a>,
    failures: &mut Failures,
) -> Result<(), NoMemory>
    ensures { OnOk result ((start : List Fault) (read : List Assignment) (l : BodyLayer) (outer : Scope) (before : List AnyItem) → IsShown visible.now (l.names ∷ around outer) → IsLayer anywhere body layer.old start failures.old read
        → IsLayer anywhere body layer.new start failures.new (read ++ default_in l outer (before, item.now))) }
{
    match item {
        Item::Default(set) => layer.read(set, Allowed::Anywhere, body, visible, failures),
        _ => Ok(()),
    }
}

// How many items are defaults.
fn count_defaults(items: &[Item<'_>]) -> usize {
    items
        .iter()
        .filter(|item| matches!(item, Item::Default(_)))
        .count()
}

/// Puts in all failures of the defaults of a body, which are legal on every kind: V rules in values, P1, P2, P4 to P6 and P8. It
/// gives those that fail none. The body has the number, and its names and those round it are visible (SystemRDL 2.0, 5.1.3).
pub fn judge_defaults<'a>(
    alloc: Global,
    items: &'a [Item<'a>],
    body: u32,
    visible: &Chain<'_, '_, '_, 'a>,
    failures: &mut Failures,
) -> Result<Defaults<'a>, NoMemory>
    ensures noted { OnOk result ((b : Body) → b.items ≡ items.now → IsShown visible.now (b.names ∷ around b.outer) → failures.new ≡ with_all (all_failures (failures_of anywhere) (defaults b)) failures.old) }
    ensures given { IfOk result (λ r. (b : Body) → b.items ≡ items.now → IsShown visible.now (b.names ∷ around b.outer) → AreDefaults r body b) }
{
    let mut layer = Layer::with_room(alloc, count_defaults(items))?;
    let mut positions = Vec::new(alloc);
    for (position, item) in items.iter().enumerate() {
        read_default(&mut layer, item, body, visible, failures)?;
        fill(&mut positions, layer.given.len(), position)?;
    }
    Ok(Defaults {
        given: layer.given,
        positions,
    })
}

/// The same for a further body of a text, of the settings that are live there: the failures of the others were put in with an earlier
/// body, and they give nothing.
pub fn judge_live_defaults<'a>(
    alloc: Global,
    live: &[LiveSet<'a>],
    body: u32,
    visible: &Chain<'_, '_, '_, 'a>,
    failures: &mut Failures,
) -> Result<Defaults<'a>, NoMemory>
    ensures noted { OnOk result ((b : Body) → IsShown visible.now (b.names ∷ around b.outer) → AreThinned default_set anywhere failures.old b [] b.items live.now → failures.new ≡ with_all (all_failures (failures_of anywhere) (defaults b)) failures.old) }
    ensures given { IfOk result (λ r. (b : Body) → IsShown visible.now (b.names ∷ around b.outer) → AreThinned default_set anywhere failures.old b [] b.items live.now → AreDefaults r body b) }
{
    let mut layer = Layer::with_room(alloc, live.len())?;
    let mut positions = Vec::new(alloc);
    for one in live {
        layer.read(one.set, Allowed::Anywhere, body, visible, failures)?;
        fill(&mut positions, layer.given.len(), one.position)?;
    }
    Ok(Defaults {
        given: layer.given,
        positions,
    })
}
