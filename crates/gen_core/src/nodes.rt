//! All nodes of a block over its registers.

ghost use Rattle.std.specs.Prelude.{◌≡◌, IfOk, OnOk};
ghost use Rattle.rtl_net.specs.Net.{Grows};
ghost use Rattle.gen_scene.specs.Bases.{IsBase};
ghost use Rattle.gen_access.specs.Words.{AreHitsOf, read_word, reads_through, written_word, writes_through};
ghost use Rattle.gen_clock.specs.Edges.{AreNexts, IsScene};
ghost use Rattle.gen_core.specs.Parts.{HasParts, HasShown, HasTaken, IsSceneOf};

use block_plan::wanted;
use gen_access::{WordHits, marks, word_hits};
use gen_clock::{answer_node, moved_nodes, next_nodes, used_nodes};
use gen_scene::{Base, Scene, item_nodes};
use rb_base::NoMemory;
use rtl_net::{Id, Netlist};
use std::alloc::Global;

/// The nodes of the read data of the access of the edge, of 32 bits, and of what the registers take, in the order of the plan.
#[derive(Drop)]
pub(crate) struct EdgeResults {
    pub answer: Id,
    pub nexts: Vec<Id>,
}

/// The nodes of a block: of its items by their places, and of what an edge takes of them.
#[derive(Drop)]
pub(crate) struct Parts {
    pub items: Vec<Id>,
    pub taken: EdgeResults,
}

/// The nodes of the block's items by their places.
fn table(
    alloc: Global,
    net: &mut Netlist,
    base: &Base,
    hits: &WordHits,
) -> Result<Vec<Id>, NoMemory>
    requires base { IsBase net.old base.now }
    requires reads { AreHitsOf base.now.block.now base.now.inlet net.old base.now.block.now.reads read_word reads_through hits.now.reads.items }
    requires writes { AreHitsOf base.now.block.now base.now.inlet net.old base.now.block.now.writes written_word writes_through hits.now.writes.items }
    ensures older { Grows net.old net.new }
    ensures name { net.new.name ≡ net.old.name }
    ensures scene { IfOk result (λ t. IsSceneOf net.new base.now t.items) }
{
    let needed = wanted(alloc, base.block, base.plan)?;
    let touched = marks(alloc, net, base, hits, &needed)?;
    let items = item_nodes(alloc, net, base, &touched, &needed)?;
    Ok(items)
}

/// What the registers take, in the order of the plan.
fn next_values(
    alloc: Global,
    net: &mut Netlist,
    scene: &Scene,
    hits: &WordHits,
) -> Result<Vec<Id>, NoMemory>
    requires scene { IsScene net.old scene.now }
    requires reads { AreHitsOf scene.now.base.now.block.now scene.now.base.now.inlet net.old scene.now.base.now.block.now.reads read_word reads_through hits.now.reads.items }
    requires writes { AreHitsOf scene.now.base.now.block.now scene.now.base.now.inlet net.old scene.now.base.now.block.now.writes written_word writes_through hits.now.writes.items }
    ensures older { Grows net.old net.new }
    ensures name { net.new.name ≡ net.old.name }
    ensures nexts { IfOk result (λ ids. AreNexts scene.now.base.now.block.now scene.now.base.now.inlet net.new ids.items) }
{
    let values = moved_nodes(alloc, net, scene, hits)?;
    let used = used_nodes(alloc, net, scene, &hits.writes)?;
    next_nodes(alloc, net, scene, &values, &used)
}

/// What an edge takes of the nodes of a block.
fn edge_nodes(
    alloc: Global,
    net: &mut Netlist,
    scene: &Scene,
    hits: &WordHits,
) -> Result<EdgeResults, NoMemory>
    requires scene { IsSceneOf net.old scene.now.base.now scene.now.items.now }
    requires reads { AreHitsOf scene.now.base.now.block.now scene.now.base.now.inlet net.old scene.now.base.now.block.now.reads read_word reads_through hits.now.reads.items }
    requires writes { AreHitsOf scene.now.base.now.block.now scene.now.base.now.inlet net.old scene.now.base.now.block.now.writes written_word writes_through hits.now.writes.items }
    ensures older { Grows net.old net.new }
    ensures name { net.new.name ≡ net.old.name }
    ensures shown { OnOk result (HasShown scene.now.base.now.block.now scene.now.base.now.inlet net.new scene.now.items.now) }
    ensures taken { IfOk result (λ t. HasTaken scene.now.base.now.block.now scene.now.base.now.inlet net.new t) }
{
    let answer = answer_node(alloc, net, scene, &hits.reads)?;
    let nexts = next_values(alloc, net, scene, hits)?;
    Ok(EdgeResults { answer, nexts })
}

/// Adds the nodes of a block whose registers and pins are there. The only error is want of memory, after which the netlist has
/// some of the nodes.
pub(crate) fn block_nodes(alloc: Global, net: &mut Netlist, base: &Base) -> Result<Parts, NoMemory>
    requires { IsBase net.old base.now }
    ensures older { Grows net.old net.new }
    ensures name { net.new.name ≡ net.old.name }
    ensures parts { IfOk result (λ p. HasParts base.now.block.now base.now.inlet net.new p) }
{
    let hits = word_hits(alloc, net, base)?;
    let items = table(alloc, net, base, &hits)?;
    let scene = Scene {
        base,
        items: &items,
    };
    let taken = edge_nodes(alloc, net, &scene, &hits)?;
    Ok(Parts { items, taken })
}
