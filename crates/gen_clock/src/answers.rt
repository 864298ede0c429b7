//! What a read is answered.

ghost use Rattle.std.specs.Prelude.{◌≡◌, ◌<◌, ◌≤◌, ◌+◌, ℕ, IfOk, Some, length, slice_get, if◌then◌else◌};
ghost use Rattle.rtl_net.specs.Net.{Grows, Stands};
ghost use Rattle.rb_model.specs.Sound.{WordIsSound};
ghost use Rattle.rb_model.specs.Machine.{read_data, slot_value};
ghost use Rattle.gen_scene.specs.Worth.{IsWorth};
ghost use Rattle.gen_access.specs.Words.{AreHitsOf, SlotFits, read_word, reads_through};
ghost use Rattle.gen_clock.specs.Stacks.{MayStack};
ghost use Rattle.gen_clock.specs.Edges.{IsAnswerOf, IsLaidOn, IsScene, shown_by};

use crate::stacks::{Stack, laid, word_of};
use gen_scene::Scene;
use net_gates::{choose, or_all, slice, zero};
use rb_base::NoMemory;
use rb_model::{Block, RefItem, Slot, View, Word};
use rtl_net::{Id, Netlist};
use std::alloc::Global;

/// The view of a number.
fn view_at(block: &Block, number: u32) -> &View
    requires { number < length block.now.views }
    ensures { slice_get block.now.views number ≡ Some result.now }
{
    &block.views.items[number as usize]
}

/// Puts the bits that a slot shows at their place in the word.
#[tactic(auto, using(rtl_net::proofs::Nets::building))]
fn slot_data(
    net: &mut Netlist,
    scene: &Scene,
    slot: Slot,
    stack: Option<Stack>,
) -> Result<Option<Stack>, NoMemory>
    requires scene { IsScene net.old scene.now }
    requires slot { SlotFits scene.now.base.now.block.now slot }
    requires stack { MayStack net.old 32 stack }
    ensures older { Grows net.old net.new }
    ensures name { net.new.name ≡ net.old.name }
    ensures laid { IfOk result (λ s. IsLaidOn scene.now.base.now.block.now scene.now.base.now.inlet net.old net.new stack s
        (λ v. slot_value scene.now.base.now.block.now v slot)) }
{
    let view = view_at(scene.base.block, slot.view);
    if !view.reads {
        return Ok(stack);
    }
    let value = scene.node(RefItem::Field(view.field));
    let bits = slice(net, value, slot.from + (slot.bits - 1), slot.from)?;
    let all = laid(net, stack, bits, slot.low, 32)?;
    Ok(Some(all))
}

/// The bits that a word shows.
#[tactic(auto, using(rtl_net::proofs::Nets::building))]
fn word_data(net: &mut Netlist, scene: &Scene, word: &Word) -> Result<Id, NoMemory>
    requires scene { IsScene net.old scene.now }
    requires word { WordIsSound scene.now.base.now.block.now word.now }
    ensures older { Grows net.old net.new }
    ensures name { net.new.name ≡ net.old.name }
    ensures worth { IfOk result (λ id. IsWorth scene.now.base.now.block.now scene.now.base.now.inlet net.new id 32
        (λ n v. shown_by scene.now.base.now.block.now v word.now.slots)) }
{
    let mut stack = None;
    for slot in &word.slots.items {
        stack = slot_data(net, scene, *slot, stack)?;
    }
    let id = word_of(net, stack, 32)?;
    Ok(id)
}

/// The read data of a word where the access reads it, else 0.
#[tactic(auto, using(rtl_net::proofs::Nets::building))]
fn word_answer(net: &mut Netlist, scene: &Scene, word: &Word, hit: Id) -> Result<Id, NoMemory>
    requires scene { IsScene net.old scene.now }
    requires word { WordIsSound scene.now.base.now.block.now word.now }
    requires hit { Stands net.old hit 1 }
    ensures older { Grows net.old net.new }
    ensures name { net.new.name ≡ net.old.name }
    ensures worth { IfOk result (λ id. IsAnswerOf scene.now.base.now.block.now scene.now.base.now.inlet net.old net.new hit word.now.slots id) }
{
    let none = zero(net, 32)?;
    let all = word_data(net, scene, word)?;
    let id = choose(net, hit, all, none)?;
    Ok(id)
}

/// The read data of the access of the edge, of 32 bits: 0 where it doesn't read. `hits` says of each word whether it is read. The
/// only error is want of memory, after which the netlist has some of the nodes.
#[tactic(auto, using(rtl_net::proofs::Nets::building))]
pub fn answer_node(
    alloc: Global,
    net: &mut Netlist,
    scene: &Scene,
    hits: &[Id],
) -> Result<Id, NoMemory>
    requires scene { IsScene net.old scene.now }
    requires hits { AreHitsOf scene.now.base.now.block.now scene.now.base.now.inlet net.old scene.now.base.now.block.now.reads read_word reads_through hits.now }
    ensures older { Grows net.old net.new }
    ensures name { net.new.name ≡ net.old.name }
    ensures worth { IfOk result (λ id. IsWorth scene.now.base.now.block.now scene.now.base.now.inlet net.new id 32
        (λ n v. read_data scene.now.base.now.block.now v n.access)) }
{
    let block = scene.base.block;
    let words: &[Word] = &block.reads.items;
    let mut answers = Vec::with_capacity(alloc, words.len())?;
    for (number, word) in words.iter().enumerate() {
        answers.push(word_answer(net, scene, word, hits[number])?)?;
    }
    let id = or_all(net, 32, &answers)?;
    Ok(id)
}
