//! What fields have next, but for resets.

ghost use Rattle.std.specs.Prelude.{◌≡◌, ◌<◌, ◌≤◌, ◌^◌, ℕ, IfOk, OnErr, OnOk, Some, length, slice_get, if◌then◌else◌};
ghost use Rattle.rtl_net.specs.Net.{Grows};
ghost use Rattle.rb_model.specs.Items.{Now, ItemValues};
ghost use Rattle.rb_model.specs.Kept.{Done};
ghost use Rattle.rb_model.specs.declared.kinds.RefItem.TheVariants as item;
ghost use Rattle.gen_scene.specs.Bases.{IsBase};
ghost use Rattle.gen_access.specs.Tables.{AreNodes, AreWorth, Changes};
ghost use Rattle.gen_access.specs.Words.{AreHitsOf, read_word, reads_through, written_word, writes_through};
ghost use Rattle.gen_access.specs.Touches.{one_bit};
ghost use Rattle.gen_clock.specs.Edges as spec;

use crate::fields::hardware_nodes;
use gen_access::{Effect, WordHits, software_nodes};
use gen_scene::{Base, Scene};
use net_gates::present;
use rb_base::NoMemory;
use rb_model::{Field, RefItem};
use rtl_net::{Id, Netlist};
use std::alloc::Global;

/// The number of an index. The only error is an index at or above 2^32.
fn number_of(index: usize) -> Result<u32, NoMemory>
    ensures is { IfOk result (λ n. n ≡ index) }
    ensures over { OnErr result (2 ^ 32 ≤ index) }
{
    // A list of so many fields would have ended memory long before.
    match u32::try_from(index) {
        Ok(number) => Ok(number),
        Err(_) => Err(NoMemory),
    }
}

/// The nodes of the values of all fields.
fn value_nodes(alloc: Global, scene: &Scene) -> Result<Vec<Id>, NoMemory>
    requires { spec.HasPlaces scene.now }
    ensures { IfOk result (λ t. spec.AreValues scene.now t.items) }
{
    let block = scene.base.block;
    let fields: &[Field] = &block.fields.items;
    let mut table = Vec::with_capacity(alloc, fields.len())?;
    for index in 0..fields.len() {
        let number = number_of(index)?;
        table.push(scene.node(RefItem::Field(number)))?;
    }
    Ok(table)
}

/// Puts hardware and software behind what the table has of each field, in the order of the field's precedence.
#[tactic(auto, using(rtl_net::proofs::Nets::building))]
fn put_edge(
    net: &mut Netlist,
    scene: &Scene,
    hits: &WordHits,
    table: &mut [Id],
) -> Result<(), NoMemory>
    requires scene { spec.IsScene net.old scene.now }
    requires reads { AreHitsOf scene.now.base.now.block.now scene.now.base.now.inlet net.old scene.now.base.now.block.now.reads read_word reads_through hits.now.reads.items }
    requires writes { AreHitsOf scene.now.base.now.block.now scene.now.base.now.inlet net.old scene.now.base.now.block.now.writes written_word writes_through hits.now.writes.items }
    requires table { AreNodes scene.now.base.now.block.now net.old table.old (λ f. f.width) }
    ensures older { Grows net.old net.new }
    ensures name { net.new.name ≡ net.old.name }
    ensures table { OnOk result (AreNodes scene.now.base.now.block.now net.new table.new (λ f. f.width)) }
    ensures changes { OnOk result (Changes scene.now.base.now.block.now scene.now.base.now.inlet net.old net.new table.old table.new (λ f. f.width)
        (spec.edge_step scene.now.base.now.block.now)) }
{
    hardware_nodes(net, scene, false, table)?;
    software_nodes(net, scene, Effect::Written, &hits.writes, table)?;
    software_nodes(net, scene, Effect::Read, &hits.reads, table)?;
    hardware_nodes(net, scene, true, table)?;
    Ok(())
}

/// What the fields that keep a value have next, but for resets, by number. `hits` says which words the access reaches. The only
/// error is want of memory, after which the netlist has some of the nodes.
#[tactic(auto, using(rtl_net::proofs::Nets::building))]
pub fn moved_nodes(
    alloc: Global,
    net: &mut Netlist,
    scene: &Scene,
    hits: &WordHits,
) -> Result<Vec<Id>, NoMemory>
    requires scene { spec.IsScene net.old scene.now }
    requires reads { AreHitsOf scene.now.base.now.block.now scene.now.base.now.inlet net.old scene.now.base.now.block.now.reads read_word reads_through hits.now.reads.items }
    requires writes { AreHitsOf scene.now.base.now.block.now scene.now.base.now.inlet net.old scene.now.base.now.block.now.writes written_word writes_through hits.now.writes.items }
    ensures older { Grows net.old net.new }
    ensures name { net.new.name ≡ net.old.name }
    ensures moved { IfOk result (λ t. spec.AreMoved scene.now.base.now.block.now scene.now.base.now.inlet net.new t.items) }
{
    let mut table = value_nodes(alloc, scene)?;
    put_edge(net, scene, hits, &mut table)?;
    Ok(table)
}

/// Whether each field was written before, where it may be written once.
fn done_nodes(alloc: Global, net: &mut Netlist, base: &Base) -> Result<Vec<Id>, NoMemory>
    requires { IsBase net.old base.now }
    ensures older { Grows net.old net.new }
    ensures name { net.new.name ≡ net.old.name }
    ensures table { IfOk result (λ t. AreNodes base.now.block.now net.new t.items one_bit) }
    ensures worth { IfOk result (λ t. AreWorth base.now.block.now base.now.inlet net.new t.items one_bit (λ k f n v. if f.once then n.kept (Done k) else 0)) }
{
    let block = base.block;
    let fields: &[Field] = &block.fields.items;
    let mut table = Vec::with_capacity(alloc, fields.len())?;
    for number in 0..fields.len() {
        let done = base.done(number);
        table.push(present(net, done, 1)?)?;
    }
    Ok(table)
}

/// Whether each field that may be written once was written by the end of the edge, but for resets, by number. `writes` says which
/// words the access writes. The only error is want of memory, after which the netlist has some of the nodes.
#[tactic(auto, using(rtl_net::proofs::Nets::building))]
pub fn used_nodes(
    alloc: Global,
    net: &mut Netlist,
    scene: &Scene,
    writes: &[Id],
) -> Result<Vec<Id>, NoMemory>
    requires scene { spec.IsScene net.old scene.now }
    requires writes { AreHitsOf scene.now.base.now.block.now scene.now.base.now.inlet net.old scene.now.base.now.block.now.writes written_word writes_through writes.now }
    ensures older { Grows net.old net.new }
    ensures name { net.new.name ≡ net.old.name }
    ensures used { IfOk result (λ t. spec.AreUsed scene.now.base.now.block.now scene.now.base.now.inlet net.new t.items) }
{
    let mut table = done_nodes(alloc, net, scene.base)?;
    software_nodes(net, scene, Effect::Used, writes, &mut table)?;
    Ok(table)
}
