//! The words that an access reaches.

ghost use Rattle.std.specs.Prelude.{◌≡◌, ◌≤◌, IfOk, length};
ghost use Rattle.std.specs.List.{list_any};
ghost use Rattle.rtl_net.specs.Net.{Grows};
ghost use Rattle.rb_model.specs.Sound.{WordIsSound, view_passes};
ghost use Rattle.rb_model.specs.References.{Each};
ghost use Rattle.gen_scene.specs.Bases.{IsBase};
ghost use Rattle.gen_access.specs.Words.{AreHitsOf, AreMarkedWords, SlotFits, acts_through, read_word, reads_through, written_word, writes_through};

use crate::software::view_at;
use gen_decode::hits;
use gen_scene::Base;
use net_gates::{both, opposite};
use rb_base::NoMemory;
use rb_effects::has_read_effect;
use rb_model::{Block, Slot, View, Word};
use rtl_net::{Id, Netlist};
use std::alloc::Global;

/// For each word with a view that is read whether the access of the edge reads it, and for each with one that is written whether
/// it writes it, of one bit each. Any node stands for another word.
#[derive(Drop)]
pub struct WordHits {
    pub reads: Vec<Id>,
    pub writes: Vec<Id>,
}

/// What an access does through a view.
#[derive(Clone, Copy)]
enum Way {
    Reads,
    Writes,
}

/// Whether an access does something through a view.
fn acts(way: Way, view: &View) -> bool
    ensures { result ≡ acts_through way view.now }
{
    match way {
        Way::Reads => view.reads || has_read_effect(view.on_read),
        Way::Writes => view.writes || view.once,
    }
}

/// Whether an access does something through a slot.
fn acts_at(block: &Block, way: Way, slot: Slot) -> bool
    requires { SlotFits block.now slot }
    ensures { result ≡ view_passes block.now (acts_through way) slot }
{
    acts(way, view_at(block, slot.view))
}

/// Whether an access does something through a view of a word.
fn acts_in(block: &Block, way: Way, word: &Word) -> bool
    requires { WordIsSound block.now word.now }
    ensures { result ≡ list_any (view_passes block.now (acts_through way)) word.now.slots }
{
    for slot in &word.slots.items {
        if acts_at(block, way, *slot) {
            return true;
        }
    }
    false
}

/// Which words an access does something to.
fn reached_words(
    alloc: Global,
    block: &Block,
    way: Way,
    words: &[Word],
) -> Result<Vec<bool>, NoMemory>
    requires { Each (WordIsSound block.now) words.now }
    ensures { IfOk result (λ marks. AreMarkedWords block.now (acts_through way) words.now marks.items) }
{
    let mut marks = Vec::with_capacity(alloc, words.len())?;
    for word in words {
        marks.push(acts_in(block, way, word))?;
    }
    Ok(marks)
}

/// Which words an access reads.
#[tactic(auto, using(rtl_net::proofs::Nets::building))]
fn read_hits(alloc: Global, net: &mut Netlist, base: &Base) -> Result<Vec<Id>, NoMemory>
    requires { IsBase net.old base.now }
    ensures older { Grows net.old net.new }
    ensures name { net.new.name ≡ net.old.name }
    ensures hits { IfOk result (λ h. AreHitsOf base.now.block.now base.now.inlet net.new base.now.block.now.reads read_word reads_through h.items) }
{
    let block = base.block;
    let words: &[Word] = &block.reads.items;
    let idle = opposite(net, base.inlet.write)?;
    let on = both(net, base.inlet.valid, idle)?;
    let needed = reached_words(alloc, block, Way::Reads, words)?;
    let ids = hits(alloc, net, on, base.inlet.word, &needed)?;
    Ok(ids)
}

/// Which words it writes.
#[tactic(auto, using(rtl_net::proofs::Nets::building))]
fn write_hits(alloc: Global, net: &mut Netlist, base: &Base) -> Result<Vec<Id>, NoMemory>
    requires { IsBase net.old base.now }
    ensures older { Grows net.old net.new }
    ensures name { net.new.name ≡ net.old.name }
    ensures hits { IfOk result (λ h. AreHitsOf base.now.block.now base.now.inlet net.new base.now.block.now.writes written_word writes_through h.items) }
{
    let block = base.block;
    let words: &[Word] = &block.writes.items;
    let on = both(net, base.inlet.valid, base.inlet.write)?;
    let needed = reached_words(alloc, block, Way::Writes, words)?;
    let ids = hits(alloc, net, on, base.inlet.word, &needed)?;
    Ok(ids)
}

/// Which words an access reaches. The only error is want of memory, after which the netlist has some of the nodes.
#[tactic(auto, using(rtl_net::proofs::Nets::building))]
pub fn word_hits(alloc: Global, net: &mut Netlist, base: &Base) -> Result<WordHits, NoMemory>
    requires { IsBase net.old base.now }
    ensures older { Grows net.old net.new }
    ensures name { net.new.name ≡ net.old.name }
    ensures reads { IfOk result (λ h. AreHitsOf base.now.block.now base.now.inlet net.new base.now.block.now.reads read_word reads_through h.reads.items) }
    ensures writes { IfOk result (λ h. AreHitsOf base.now.block.now base.now.inlet net.new base.now.block.now.writes written_word writes_through h.writes.items) }
{
    let reads = read_hits(alloc, net, base)?;
    let writes = write_hits(alloc, net, base)?;
    Ok(WordHits { reads, writes })
}
